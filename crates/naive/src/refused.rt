// Refusals, by the numbers of documents 01 and 02.

// Why a call is refused.
// kept: these numbers are what is compared with the proved code's, and an enum shared with it would not be written apart from it.
#[derive(Clone, Copy, Debug, PartialEq, Eq)]
pub struct Refused(pub u32);

// The refusal by a number where a check fails.
pub(crate) fn refused_if(fails: bool, number: u32) -> Result<(), Refused> {
    if fails {
        return Err(Refused(number));
    }
    Ok(())
}
