// The way back from a slot (document 02): its row and its column.
ghost use Rattle.std.specs.Prelude.{◌≡◌};
ghost use Rattle.plan.specs.Answers.{slot_reply};
ghost use Rattle.plan.specs.Questions.{slot_question};

use crate::checks::check_layout;
use plan::{Pair, Refusal};

// The question about slot s: its row, which is the later position, and its column. Checks 1, 22, 27.
// O(n + slots) for the checks, O(log n) behind them.
#[tactic(auto, using(crate::proofs::Answered::slot_passed_on))]
pub fn pair_of_slot(
    n: usize,
    column_starts: &[u32],
    rows: &[u16],
    s: usize,
) -> Result<Pair, Refusal>
    ensures { slot_reply result ≡ slot_question n column_starts.now rows.now s }
{
    let layout = check_layout(n, column_starts, rows)?;
    if s >= layout.slots() {
        return Err(Refusal::SlotOutside);
    }
    Ok(layout.pair(s))
}
