// The work of one column: its divisions, then, row after row, the subtractions at the pairs of that row with the rows behind it.
ghost use Rattle.std.specs.Prelude.{◌≡◌, ◌-◌, ◌≤◌, ◌<◌, length};
ghost use Rattle.plan.specs.Lists.{up_from};
ghost use Rattle.plan.specs.Factoring.{divided};
ghost use Rattle.factor.specs.Down.{Keeps};
ghost use Rattle.factor.specs.Working.{AtRow, Advanced, Ready, Worked};

use crate::rows::{along, continues, row_along, row_down, row_known};
use crate::table::Columns;

// The values in slots from .. to are kept, each is divided by the pivot, and what comes of it is kept in `lower` beside. O(to − from).
fn divide(values: &mut [f64], kept: &mut [f64], lower: &mut [f64], from: usize, to: usize, d: f64)
    requires { (from ≤ to) × (to ≤ length values.old) × (to - from ≤ length kept.old) × (to - from ≤ length lower.old) }
    ensures values_after { values.new ≡ divided (up_from from (to - from)) d values.old }
    ensures keeps { Keeps kept.new values.old from to × Keeps lower.new values.new from to }
{
    // kept: of three buffers, two begin at their fronts: the head of a zipped loop is longer than this body
    for s in from..to {
        let l = values[s] / d;
        kept[s - from] = values[s];
        lower[s - from] = l;
        values[s] = l;
    }
}

// The row in slot s, and those behind it as long as each is the first row of the column before, which otherwise has its rows: with k's places those of
// the next are known. Gives the first slot that is left. O(rows of its column + products).
fn factor_rows(
    columns: &Columns,
    diagonal: &mut [f64],
    values: &mut [f64],
    kept: &[f64],
    lower: &[f64],
    places: &mut [u32],
    first: usize,
    s: usize,
    to: usize,
) -> usize
    requires { AtRow columns.now.starts.now columns.now.rows.now (length diagonal.old) (length values.old) (length kept.now) (length lower.now) first s to × (to - first ≤ length places.old) }
    ensures { Advanced columns.now.starts.now columns.now.rows.now kept.now lower.now first to s result diagonal.old values.old diagonal.new values.new × (s < result) }
{
    row_down(columns, diagonal, values, kept, lower, places, first, s, to);
    let mut k = columns.rows[s] as usize;
    let mut shift = 0;
    for at in s + 1..to {
        let next = columns.rows[at] as usize;
        if !continues(columns, k, next) {
            return at;
        }
        shift += columns.starts[next] as usize - columns.starts[k] as usize - 1;
        row_known(
            columns, diagonal, values, kept, lower, places, first, at, to, shift,
        );
        k = next;
    }
    to
}

// The work of column j with pivot d; `kept`, `lower` and `places` are working memory. O(products + rows of the columns that are run down).
pub(crate) fn factor_column(
    columns: &Columns,
    diagonal: &mut [f64],
    values: &mut [f64],
    kept: &mut [f64],
    lower: &mut [f64],
    places: &mut [u32],
    j: usize,
    d: f64,
)
    requires { Ready columns.now.starts.now columns.now.rows.now (length diagonal.old) (length values.old) (length kept.old) (length lower.old) (length places.old) j }
    ensures { Worked columns.now.starts.now columns.now.rows.now j d diagonal.old values.old diagonal.new values.new }
{
    let from = columns.starts[j] as usize;
    let to = columns.starts[j + 1] as usize;
    divide(values, kept, lower, from, to, d);
    let mut s = from;
    // kept: a turn takes one row, or as many as `factor_rows` finds
    while s < to {
        if along(columns, columns.rows[s] as usize, s + 1, to) {
            row_along(columns, diagonal, values, kept, lower, from, s, to);
            s += 1;
            continue;
        }
        s = factor_rows(columns, diagonal, values, kept, lower, places, from, s, to);
    }
}
