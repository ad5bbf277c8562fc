// The lines of a plan in lent buffers.
ghost use Rattle.std.specs.Prelude.{◌≡◌, ℕ, ◌++◌, ◌+◌, ◌≤◌, ◌<◌, length};
ghost use Rattle.plan.specs.Parts.{part_of};
ghost use Rattle.plan.specs.Listing.{print};
ghost use Rattle.mesh.specs.Lists.{ListWithin};
ghost use Rattle.text.specs.Lines.{lines_of, lent_plan, PlanWithin, answer_text, AnswerWithin};
ghost use Rattle.text.specs.Room.{longest};

use crate::output::Text;
use mesh::list;
use plan::{Plan, Refusal};

// The part in which position i lies: "Parts take the positions in turn, each as many as its size." O(parts).
fn part_of(sizes: &[u16], i: usize) -> usize
    ensures { result ≡ part_of sizes.now i }
{
    let mut left = i;
    for (q, &size) in sizes.iter().enumerate() {
        let size = size as usize;
        if left < size {
            return q;
        }
        left -= size;
    }
    sizes.len()
}

// A line for each position. O(n · parts + slots · digits).
fn put_lines(text: &mut Text, order: &[u16], sizes: &[u16], column_starts: &[u32], rows: &[u16])
    requires by_index { (j : ℕ) → j < length order.now → ListWithin column_starts.now rows.now j }
    requires room { length text.old + length (lines_of order.now sizes.now column_starts.now rows.now) ≤ longest }
    ensures { text.new ≡ text.old ++ lines_of order.now sizes.now column_starts.now rows.now }
{
    for (j, &node) in order.iter().enumerate() {
        text.line(
            j,
            node as usize,
            part_of(sizes, j),
            list(column_starts, rows, j),
        );
    }
}

// The listing of a plan at the front of buffers: the first line, then a line for each position. O(n · parts + slots · digits).
fn put_plan(
    text: &mut Text,
    counts: Plan,
    order: &[u16],
    sizes: &[u16],
    column_starts: &[u32],
    rows: &[u16],
)
    requires plan_within { PlanWithin counts.nodes counts.parts order.now sizes.now column_starts.now rows.now }
    requires room { length text.old + length (print 0 (lent_plan counts.nodes counts.parts counts.slots order.now sizes.now column_starts.now rows.now)) ≤ longest }
    ensures { text.new ≡ text.old ++ print 0 (lent_plan counts.nodes counts.parts counts.slots order.now sizes.now column_starts.now rows.now) }
{
    text.head(counts);
    let nodes = &order[..counts.nodes as usize];
    let parts = &sizes[..counts.parts as usize];
    put_lines(text, nodes, parts, column_starts, rows);
}

// What is listed for an answer of planning: the plan in the buffers, or the refusal. O(n · parts + slots · digits).
pub(crate) fn put_answer(
    text: &mut Text,
    answer: Result<Plan, Refusal>,
    order: &[u16],
    sizes: &[u16],
    column_starts: &[u32],
    rows: &[u16],
)
    requires answer_within { AnswerWithin answer order.now sizes.now column_starts.now rows.now }
    requires room { length text.old + length (answer_text answer order.now sizes.now column_starts.now rows.now) ≤ longest }
    ensures { text.new ≡ text.old ++ answer_text answer order.now sizes.now column_starts.now rows.now }
{
    match answer {
        Ok(counts) => {
            put_plan(text, counts, order, sizes, column_starts, rows);
        }
        Err(refusal) => text.refusal(refusal),
    }
}
