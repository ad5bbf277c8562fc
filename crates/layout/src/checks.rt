// Checks that several entry points make: 8, of the lent results, 17's rule of a column's rows, and 22, of a layout, alone and behind 1.
ghost use Rattle.std.specs.Prelude.{◌≡◌, false, ◌≤◌, length, get_or, IfOk};
ghost use Rattle.plan.specs.Refusals.{fault_of, first_fault};
ghost use Rattle.plan.specs.Mesh.{bad_starts};
ghost use Rattle.plan.specs.Planning.{buffers_too_short, lengths};
ghost use Rattle.plan.specs.File.{bad_column, bad_columns};
ghost use Rattle.plan.specs.Questions.{bad_layout, layout_checks};
ghost use Rattle.layout.specs.Layouts.{LaidOut};

use crate::checked::CheckedLayout;
use mesh::{bad_node_count, bad_starts, list};
use plan::Refusal;

// Check 8: a lent result other than the rows is too short. O(1).
#[tactic(auto, unfolding(plan::specs::Planning::buffers_too_short))]
pub fn buffers_too_short(
    n: usize,
    order: usize,
    positions: usize,
    sizes: usize,
    parents: usize,
    column_starts: usize,
) -> bool
    ensures { result ≡ buffers_too_short n (lengths order positions sizes parents column_starts 0) }
{
    order < n || positions < n || sizes < n || parents < n || column_starts <= n
}

// 17's rule: a column's rows are strictly ascending, above the column and below n. Whether rows of column j break it. O(length).
pub fn bad_column(n: usize, j: usize, column: &[u16]) -> bool
    ensures { result ≡ bad_column n j column.now }
{
    let mut before = j;
    for &row in column {
        let i = row as usize;
        if i <= before || i >= n {
            return true;
        }
        before = i;
    }
    false
}

// Whether some column breaks 17's rule. O(n + slots).
fn bad_columns(n: usize, column_starts: &[u32], rows: &[u16]) -> bool
    requires { (bad_starts n column_starts.now ≡ false) × (get_or column_starts.now n 0 ≤ length rows.now) }
    ensures { result ≡ bad_columns n column_starts.now rows.now }
{
    for j in 0..n {
        if bad_column(n, j, list(column_starts, rows, j)) {
            return true;
        }
    }
    false
}

// Check 22: the starts are not those of n columns, the last is above the rows' length, or a column breaks 17's rule. O(n + slots).
#[tactic(auto, unfolding(plan::specs::Questions::bad_layout))]
fn bad_layout(n: usize, column_starts: &[u32], rows: &[u16]) -> bool
    ensures { result ≡ bad_layout n column_starts.now rows.now }
{
    if bad_starts(n, column_starts) {
        return true;
    }
    rows.len() < column_starts[n] as usize || bad_columns(n, column_starts, rows)
}

// Checks 1 and 22, and the layout that has passed them. O(n + slots).
#[tactic(auto, unfolding(plan::specs::Refusals::first_fault, plan::specs::Questions::layout_checks))]
pub(crate) fn check_layout<'a>(
    n: usize,
    column_starts: &'a [u32],
    rows: &'a [u16],
) -> Result<CheckedLayout<'a>, Refusal>
    ensures fault { fault_of result ≡ first_fault (layout_checks n column_starts.now rows.now) }
    ensures passed { IfOk result (λ layout. LaidOut layout n column_starts.now rows.now) }
{
    if bad_node_count(n) {
        return Err(Refusal::NodeCount);
    }
    if bad_layout(n, column_starts, rows) {
        return Err(Refusal::Layout);
    }
    Ok(CheckedLayout {
        n,
        column_starts,
        rows,
    })
}
