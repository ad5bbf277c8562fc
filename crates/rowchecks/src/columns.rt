// The rules of checks 17 to 19 for the rows of one column.
ghost use Rattle.std.specs.Prelude.{◌≡◌, true, not, ◌||◌, ℕ, ◌≤◌, ◌<◌, eqb, length, get_or};
ghost use Rattle.plan.specs.Lists.{every, is_in, same as same_lists};
ghost use Rattle.plan.specs.File.{bad_column};
ghost use Rattle.rowchecks.specs.Rows.{outside_ranges};

use crate::ranges::PartRanges;
use crate::rows::Rows;

// kept: the loops go by the rows' places, since rows in bytes are no slice; an iterator over them would count the same places itself.

// Whether rows of column j break neither 17's rule nor 18's. From the last row to the first, each is to be less than the one behind it, the last less
// than n: one comparison for both, before the row's range is looked up. O(length).
pub(crate) fn sound<R: Rows>(ranges: &PartRanges, j: usize, column: R) -> bool
    requires { j < ranges.now.n }
    ensures { result ≡ not (bad_column ranges.now.n j (R.numbers column) || outside_ranges ranges.now.n ranges.now.lows.now ranges.now.ends.now j (R.numbers column)) }
{
    let own = ranges.lows[j];
    let mut behind = ranges.n;
    for k in (0..column.count()).rev() {
        let i = column.row(k);
        if i >= behind {
            return false;
        }
        if !ranges.holds(i, own) {
            return false;
        }
        behind = i;
    }
    j < behind
}

// Whether rows of column j break 18's rule, in whatever order they stand; a row of n or more does. O(length).
// Out of the walk's way, which asks it of no sound column; so is the rule of 17 by itself, in `rows`.
#[cold]
#[inline(never)]
pub(crate) fn outside<R: Rows>(ranges: &PartRanges, j: usize, column: R) -> bool
    requires { j < ranges.now.n }
    ensures { result ≡ outside_ranges ranges.now.n ranges.now.lows.now ranges.now.ends.now j (R.numbers column) }
{
    for k in 0..column.count() {
        let i = column.row(k);
        if i >= ranges.n {
            return true;
        }
        if !ranges.holds(i, ranges.lows[j]) {
            return true;
        }
    }
    false
}

// Whether two lists of one length are equal. Every entry is looked at, so that several can be compared at once. O(length).
pub(crate) fn same<R: Rows>(a: R, b: R) -> bool
    requires { length (R.numbers a) ≡ length (R.numbers b) }
    ensures { result ≡ same_lists (R.numbers a) (R.numbers b) }
{
    let mut differ = false;
    for k in 0..a.count() {
        differ |= a.row(k) != b.row(k);
    }
    !differ
}

// Whether each of some rows has the mark j. O(length).
pub(crate) fn all_marked<R: Rows>(column: R, j: u16, marks: &[u16]) -> bool
    requires { (i : ℕ) → is_in i (R.numbers column) ≡ true → i < length marks.now }
    ensures { result ≡ every (λ i. eqb (get_or marks.now i 0) j) (R.numbers column) }
{
    for k in 0..column.count() {
        if marks[column.row(k)] != j {
            return false;
        }
    }
    true
}
