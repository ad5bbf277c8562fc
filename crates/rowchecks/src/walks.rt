// Checks 17 to 19 of rows whose starts have no fault: the walk of 17 and 18, and 19.
ghost use Rattle.std.specs.Prelude.{◌≡◌, List, [], ℕ, ◌+◌, ◌≤◌, ◌<◌, length};
ghost use Rattle.plan.specs.Lists.{list_at};
ghost use Rattle.plan.specs.Refusals.{fault_of, first_fault};
ghost use Rattle.plan.specs.File.{covered as covered_by, not_covered};
ghost use Rattle.plan.specs.RowFaults.{Carried};
ghost use Rattle.mesh.specs.Lists.{ListWithin};
ghost use Rattle.layout.specs.Arrays.{Unmarked};
ghost use Rattle.rowchecks.specs.Rows.{parts_and_rows, SoundParts, Started, LaidOut, Ranges, row_checks};

use crate::columns::{all_marked, outside, same, sound};
use crate::faults::RowFaults;
use crate::ranges::{PartRanges, ranges};
use crate::rows::Rows;
use mesh::{NONE, filled};
use plan::Refusal;

// kept: n, the starts and the rows stay three parameters. The ranges know n too, so a struct of these would ask for a clause that the two agree.

// Column j's rows. O(1).
fn column_of<R: Rows>(column_starts: &[u32], rows: R, j: usize) -> R
    requires { ListWithin column_starts.now (R.numbers rows) j }
    ensures { R.numbers result ≡ list_at column_starts.now (R.numbers rows) j }
{
    rows.part(column_starts[j] as usize, column_starts[j + 1] as usize)
}

// What the walk carries behind column j, where it carried `faults` before it: exactly the faults of the columns up to j, whatever the sizes and parents
// that the ranges stand for. A column that breaks either rule is looked at again for each of them, since its rows need not ascend. O(rows).
fn after_column<R: Rows>(
    faults: RowFaults,
    ranges: &PartRanges,
    column_starts: &[u32],
    rows: R,
    j: usize,
) -> RowFaults
    requires { Started ranges.now.n column_starts.now (R.numbers rows) × (j < ranges.now.n) }
    ensures { (sizes parents : List ℕ) → Ranges ranges.now.n sizes parents ranges.now.lows.now ranges.now.ends.now
        → Carried j (parts_and_rows ranges.now.n sizes parents column_starts.now (R.numbers rows)) faults.unordered faults.outside
        → Carried (j + 1) (parts_and_rows ranges.now.n sizes parents column_starts.now (R.numbers rows)) result.unordered result.outside }
{
    let column = column_of(column_starts, rows, j);
    if sound(ranges, j, column) {
        return faults;
    }
    RowFaults {
        unordered: faults.unordered | column.bad_column(ranges.n, j),
        outside: faults.outside | outside(ranges, j, column),
    }
}

// What the walk carries behind the last column, by the ranges of the parts. A fault of either rule does not end it. O(n + slots).
// Not inlined: inside an entry point the loops reach the ranges by longer instructions, and writing takes a fifth more time at half of the places where
// the linker may put it.
#[inline(never)]
fn walk_columns<R: Rows>(ranges: &PartRanges, column_starts: &[u32], rows: R) -> RowFaults
    requires { Started ranges.now.n column_starts.now (R.numbers rows) }
    ensures { (sizes parents : List ℕ) → Ranges ranges.now.n sizes parents ranges.now.lows.now ranges.now.ends.now
        → Carried ranges.now.n (parts_and_rows ranges.now.n sizes parents column_starts.now (R.numbers rows)) result.unordered result.outside }
{
    let mut faults = RowFaults::none();
    for j in 0..ranges.n {
        faults = after_column(faults, ranges, column_starts, rows, j);
    }
    faults
}

// Checks 17, where the starts have no fault, and 18: one walk over the rows. O(4,096 + n + slots).
pub fn walk<R: Rows>(
    n: usize,
    sizes: &[u16],
    parents: &[u16],
    column_starts: &[u32],
    rows: R,
) -> RowFaults
    requires { SoundParts n sizes.now parents.now × Started n column_starts.now (R.numbers rows) }
    ensures { Carried n (parts_and_rows n sizes.now parents.now column_starts.now (R.numbers rows)) result.unordered result.outside }
{
    let mut lows = filled(0);
    let mut ends = filled(0);
    ranges(n, sizes, parents, &mut lows, &mut ends);
    let ranges = PartRanges {
        n,
        lows: &lows,
        ends: &ends,
    };
    walk_columns(&ranges, column_starts, rows)
}

// Whether column j keeps 19's rule: its rows behind the first are all in the first row's column. Where that column has as many rows, the two lists
// must be the same, since both ascend; else its rows are marked, and those of column j looked up. O(both columns).
fn covered<R: Rows>(n: usize, column_starts: &[u32], rows: R, j: usize, marks: &mut [u16]) -> bool
    requires { LaidOut n column_starts.now (R.numbers rows) × (j < n) × (n ≤ length marks.old) × Unmarked n j marks.old }
    ensures { (result ≡ covered_by column_starts.now (R.numbers rows) (list_at column_starts.now (R.numbers rows) j)) × Unmarked n (j + 1) marks.new }
{
    let column = column_of(column_starts, rows, j);
    let count = column.count();
    if count < 2 {
        return true;
    }
    let first = column_of(column_starts, rows, column.row(0));
    let others = column.part(1, count);
    if first.count() == count - 1 {
        return same(first, others);
    }
    first.mark(j as u16, marks);
    all_marked(others, j as u16, marks)
}

// Check 19: a column's rows behind its first are not all in the first row's column. O(4,096 + n + slots + the first rows' columns).
pub fn not_covered<R: Rows>(n: usize, column_starts: &[u32], rows: R) -> bool
    requires { LaidOut n column_starts.now (R.numbers rows) }
    ensures { result ≡ not_covered (parts_and_rows n [] [] column_starts.now (R.numbers rows)) }
{
    let mut marks = filled(NONE);
    for j in 0..n {
        if !covered(n, column_starts, rows, j, &mut marks) {
            return true;
        }
    }
    false
}

// Checks 17, where the starts have no fault, 18 and 19. O(4,096 + n + slots + the first rows' columns).
pub fn check_rows<R: Rows>(
    n: usize,
    sizes: &[u16],
    parents: &[u16],
    column_starts: &[u32],
    rows: R,
) -> Result<(), Refusal>
    requires { SoundParts n sizes.now parents.now × Started n column_starts.now (R.numbers rows) }
    ensures { fault_of result ≡ first_fault (row_checks (parts_and_rows n sizes.now parents.now column_starts.now (R.numbers rows))) }
{
    walk(n, sizes, parents, column_starts, rows).answer()?;
    if not_covered(n, column_starts, rows) {
        return Err(Refusal::NotCovered);
    }
    Ok(())
}
