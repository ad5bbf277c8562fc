// Several inputs of the listing program in one run. Standard input is a row of cases, each a length of two bytes, little-endian, and then as many
// bytes; the listing of each is written.
// Cost: that of `text::list` on each case.
#![tactic(auto)]

ghost use Rattle.std.specs.Prelude.{◌<◌, length, IfSome};

use input::read_full;
use std::io;

// The case at the input's front, and what stands behind it; none where no whole case stands there. O(1).
fn first_case(input: &[u8]) -> Option<(&[u8], &[u8])>
    ensures { IfSome result (λ cases. length cases.1.now < length input.now) }
{
    let (size, behind) = input.split_first_chunk::<2>()?;
    behind.split_at_checked(usize::from(u16::from_le_bytes(*size)))
}

// Prints the listings of all cases, up to the first that is not whole.
fn list_all(rt: &impl Print, input: &[u8]) -> io::Result<()> {
    let mut left = input;
    while let Some((case, behind)) = first_case(left) {
        rt.write_all(text::list(case).as_bytes())?;
        left = behind;
    }
    Ok(())
}

fn main(rt: HostRuntime) -> io::Result<()> {
    let mut buffer = [0u8; 65536];
    let read = read_full(&mut rt.stdin(), &mut buffer)?;
    list_all(&rt, &buffer[..read])
}
