// "Two questions over a layout (n, column starts, rows)": the slot of a pair of positions, and a column's rows.
// Each looks at the whole layout first.
ghost use Rattle.std.specs.Prelude.{◌≡◌, ◌<◌, IfOk};
ghost use Rattle.plan.specs.Refusals.{fault_of};
ghost use Rattle.plan.specs.Answers.{pair_reply};
ghost use Rattle.plan.specs.Questions.{pair_question, column_refusal, column_span, column_rows};
ghost use Rattle.layout.specs.Layouts.{LaidOut};

use crate::checked::CheckedLayout;
use crate::checks::check_layout;
use plan::{PairAnswer, Refusal, Span};

// kept: a layout is asked about by three flat parameters, as document 01 has the questions and C asks them; so in `slots`.

// The first question: the slot of a pair of positions, in either order. Checks 1, 22, 21. O(n + slots).
#[tactic(auto, using(crate::proofs::Answered::pair_passed_on))]
pub fn slot_of_pair(
    n: usize,
    column_starts: &[u32],
    rows: &[u16],
    a: usize,
    b: usize,
) -> Result<PairAnswer, Refusal>
    ensures { pair_reply result ≡ pair_question n column_starts.now rows.now a b }
{
    let layout = check_layout(n, column_starts, rows)?;
    if a >= n || b >= n {
        return Err(Refusal::PositionOutside);
    }
    if a == b {
        return Ok(PairAnswer::Diagonal);
    }
    Ok(layout.slot(a.max(b) as u16, a.min(b)))
}

// The layout and the column of the second question. Checks 1, 22, 21. O(n + slots).
#[tactic(auto, using(crate::proofs::Answered::column_passed_on))]
fn asked<'a>(
    n: usize,
    column_starts: &'a [u32],
    rows: &'a [u16],
    j: usize,
) -> Result<CheckedLayout<'a>, Refusal>
    ensures fault { fault_of result ≡ column_refusal n column_starts.now rows.now j }
    ensures passed { IfOk result (λ layout. LaidOut layout n column_starts.now rows.now × (j < n)) }
{
    let layout = check_layout(n, column_starts, rows)?;
    if j >= n {
        return Err(Refusal::PositionOutside);
    }
    Ok(layout)
}

// The companion of the second question: its refusal. O(n + slots).
// kept: document 01 has a companion tell the refusal, and the question itself a span or rows, empty where it is refused.
pub fn column_refusal(
    n: usize,
    column_starts: &[u32],
    rows: &[u16],
    j: usize,
) -> Result<(), Refusal>
    ensures { fault_of result ≡ column_refusal n column_starts.now rows.now j }
{
    asked(n, column_starts, rows, j)?;
    Ok(())
}

// Where column j's rows stand in the rows buffer; start 0 and count 0 where the question is refused. O(n + slots).
pub fn column_span(n: usize, column_starts: &[u32], rows: &[u16], j: usize) -> Span
    ensures { result ≡ column_span n column_starts.now rows.now j }
{
    match asked(n, column_starts, rows, j) {
        Ok(layout) => layout.span(j),
        Err(_) => Span { start: 0, count: 0 },
    }
}

// The second question: column j's rows, "shown as a stretch of the rows buffer itself"; empty where it is refused. O(n + slots).
pub fn column_rows<'a>(n: usize, column_starts: &[u32], rows: &'a [u16], j: usize) -> &'a [u16]
    ensures { result.now ≡ column_rows n column_starts.now rows.now j }
{
    let span = column_span(n, column_starts, rows, j);
    &rows[span.start..span.start + span.count]
}
