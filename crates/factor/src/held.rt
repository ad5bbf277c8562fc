// Reading the factor at a pair of positions, for display.
ghost use Rattle.std.specs.Prelude.{◌≡◌, cond, eqb};
ghost use Rattle.plan.specs.Refusals.{fault_of};
ghost use Rattle.plan.specs.Answers.{held_reply};
ghost use Rattle.plan.specs.Held.{held_question};

use crate::entry::bad_filling;
use layout::slot_of_pair;
use plan::{HeldAnswer, PairAnswer, Refusal};

// The refusal by a check before 21, which are 1 and 22, and none for any other answer. O(1).
fn refused_before(answer: Result<PairAnswer, Refusal>) -> Result<(), Refusal>
    ensures { fault_of result ≡ cond (eqb (fault_of answer) 21) 0 (fault_of answer) }
{
    match answer {
        Err(refusal) if refusal != Refusal::PositionOutside => Err(refusal),
        _ => Ok(()),
    }
}

// kept: flat parameters, as the questions of `layout` have them and C asks.

// The number held at a pair of positions, in either order, or that there is no slot. Checks 1, 22, 30, 21. O(n + slots).
pub fn held_at(
    n: usize,
    column_starts: &[u32],
    rows: &[u16],
    diagonal: &[f64],
    values: &[f64],
    a: usize,
    b: usize,
) -> HeldAnswer
    ensures { held_reply result ≡ held_question n column_starts.now rows.now (record { diagonal = diagonal.now; values = values.now }) a b }
{
    let answer = slot_of_pair(n, column_starts, rows, a, b);
    // 30 comes behind 1 and 22, and before 21
    if let Err(refusal) = refused_before(answer) {
        return HeldAnswer::Refused(refusal.number());
    }
    if bad_filling(n, column_starts[n] as usize, diagonal, values) {
        return HeldAnswer::Refused(Refusal::ValueCount.number());
    }
    match answer {
        Ok(PairAnswer::Slot(s)) => HeldAnswer::Value(values[s as usize]),
        Ok(PairAnswer::Diagonal) => HeldAnswer::Value(diagonal[a]),
        Ok(PairAnswer::NoSlot) => HeldAnswer::NoSlot,
        Err(refusal) => HeldAnswer::Refused(refusal.number()),
    }
}
