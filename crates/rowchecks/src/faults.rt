// What the walk over the rows carries, and the answer that it gives at the end.
ghost use Rattle.std.specs.Prelude.{◌≡◌, false};
ghost use Rattle.plan.specs.Refusals.{fault_of};
ghost use Rattle.plan.specs.RowFaults.{walk_answer};

use plan::Refusal;

// Whether a fault of 17's rule of the rows, and whether one of 18, stands in the columns walked so far.
#[derive(Clone, Copy)]
pub struct RowFaults {
    pub unordered: bool,
    pub outside: bool,
}

impl RowFaults {
    // Before the first column. O(1).
    pub(crate) fn none() -> Self
        ensures { (result.unordered ≡ false) × (result.outside ≡ false) }
    {
        Self {
            unordered: false,
            outside: false,
        }
    }

    // The answer at the walk's end: 17 wins wherever it stands. O(1).
    #[tactic(auto, unfolding(plan::specs::RowFaults::walk_answer))]
    pub fn answer(self) -> Result<(), Refusal>
        ensures { fault_of result ≡ walk_answer self.unordered self.outside }
    {
        if self.unordered {
            return Err(Refusal::Rows);
        }
        if self.outside {
            return Err(Refusal::RowOutside);
        }
        Ok(())
    }
}
