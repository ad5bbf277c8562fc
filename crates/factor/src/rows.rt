// The rows of a column at work. The pairs of row k with the rows behind it stand in column k, which by check 19 has all of these, so that both lists are
// run down side by side. They are not compared where the first rows of column k are just these; nor where k is the first row of the column before it in
// the same way, which otherwise has the same rows: then the places are known from there. In all of it `first` is the column's first slot; from there on
// `kept` keeps v, before the divisions, and `lower` l, after them.
// kept: what is asked of a row (`AtRow`, `Beside`) stays a clause, for it tells of the lengths of buffers that are written, which no field of a struct can
ghost use Rattle.std.specs.Prelude.{◌≡◌, true, List, ◌+◌, ◌-◌, ◌≤◌, ◌<◌, length, get_or, Float};
ghost use Rattle.plan.specs.Lists.{up_from};
ghost use Rattle.factor.specs.Down.{less_down, Keeps, Beside, along_front, Placed, continued};
ghost use Rattle.factor.specs.Working.{AtRow, Advanced, Twins};

use crate::table::Columns;

// The slots from .. to of a column's rows behind row k, which are the first rows of column k: l of each times v is subtracted in the slot that its row
// has there. `rows` is for the contract alone. O(to − from), several at once where the machine can.
fn less_along(
    columns: &Columns,
    values: &mut [f64],
    lower: &[f64],
    k: usize,
    first: usize,
    from: usize,
    to: usize,
    v: f64,
)
    requires beside { Beside columns.now.starts.now columns.now.rows.now k first from to (length values.old) (length lower.now) }
    requires to_value { along_front columns.now.starts.now columns.now.rows.now k from to ≡ true }
    ensures { (l : List Float) → Keeps lower.now l first to → values.new ≡ less_down columns.now.starts.now columns.now.rows.now l k v (up_from from (to - from)) values.old }
{
    let start = columns.starts[k] as usize;
    // kept: zipped, the bounds of both parts would say what u and t say, in a head longer than the body; so in `less_known`
    for t in from..to {
        let u = start + (t - from);
        values[u] = values[u] - lower[t - first] * v;
    }
}

// The same for any rows: column k is run down beside them, and the slots are noted in `places`. O(rows of column k).
fn less_down(
    columns: &Columns,
    values: &mut [f64],
    lower: &[f64],
    places: &mut [u32],
    k: usize,
    first: usize,
    from: usize,
    to: usize,
    v: f64,
)
    requires { Beside columns.now.starts.now columns.now.rows.now k first from to (length values.old) (length lower.now) × (to - first ≤ length places.old) }
    ensures values_after { (l : List Float) → Keeps lower.now l first to → values.new ≡ less_down columns.now.starts.now columns.now.rows.now l k v (up_from from (to - from)) values.old }
    ensures placed { Placed places.new columns.now.starts.now columns.now.rows.now k first (get_or columns.now.starts.now k 0) from to }
{
    let mut t = from;
    let mut u = columns.starts[k] as usize;
    // kept: u goes on in every turn, t only where the rows agree
    while t < to {
        if columns.rows[u] != columns.rows[t] {
            u += 1;
            continue;
        }
        values[u] = values[u] - lower[t - first] * v;
        places[t - first] = u as u32;
        t += 1;
        u += 1;
    }
}

// The same where `places` tells the slots: each is `shift` behind the one noted. `starts`, `rows` and k are for the contract alone. O(to − from).
fn less_known(
    columns: &Columns,
    values: &mut [f64],
    lower: &[f64],
    places: &[u32],
    k: usize,
    first: usize,
    from: usize,
    to: usize,
    shift: usize,
    v: f64,
)
    requires beside { Beside columns.now.starts.now columns.now.rows.now k first from to (length values.old) (length lower.now) × (to - first ≤ length places.now) }
    requires shift_bound { (shift ≤ get_or columns.now.starts.now k 0) × Placed places.now columns.now.starts.now columns.now.rows.now k first (get_or columns.now.starts.now k 0 - shift) from to }
    ensures { (l : List Float) → Keeps lower.now l first to → values.new ≡ less_down columns.now.starts.now columns.now.rows.now l k v (up_from from (to - from)) values.old }
{
    for t in from..to {
        let u = places[t - first] as usize + shift;
        values[u] = values[u] - lower[t - first] * v;
    }
}

// Whether the rows in the slots from .. to, all of them rows of column k, are its first: their last one tells. O(1).
#[tactic(auto, unfolding(crate::specs::Down::along_front))]
pub(crate) fn along(columns: &Columns, k: usize, from: usize, to: usize) -> bool
    requires { (k < length columns.now.starts.now) × (from ≤ to) × (to ≤ length columns.now.rows.now) × (get_or columns.now.starts.now k 0 + (to - from) ≤ length columns.now.rows.now) }
    ensures { result ≡ along_front columns.now.starts.now columns.now.rows.now k from to }
{
    to == from || columns.rows[columns.starts[k] as usize + (to - from) - 1] == columns.rows[to - 1]
}

// Whether column k has `next` for its first row, and besides as many rows as column `next`. O(1).
#[tactic(auto, unfolding(crate::specs::Down::continued))]
pub(crate) fn continues(columns: &Columns, k: usize, next: usize) -> bool
    requires { Twins columns.now.starts.now columns.now.rows.now k next }
    ensures { result ≡ continued columns.now.starts.now columns.now.rows.now k next }
{
    let start = columns.starts[k] as usize;
    let rows_of_k = columns.starts[k + 1] as usize - start;
    let rows_of_next = columns.starts[next + 1] as usize - columns.starts[next] as usize;
    columns.rows[start] as usize == next && rows_of_k == rows_of_next + 1
}

// The row in slot s, with itself and with the rows behind it, which are the first of its column: l of each times v of the row is subtracted at the pair.
// O(to − s).
pub(crate) fn row_along(
    columns: &Columns,
    diagonal: &mut [f64],
    values: &mut [f64],
    kept: &[f64],
    lower: &[f64],
    first: usize,
    s: usize,
    to: usize,
)
    requires at_row { AtRow columns.now.starts.now columns.now.rows.now (length diagonal.old) (length values.old) (length kept.now) (length lower.now) first s to }
    requires to_value { along_front columns.now.starts.now columns.now.rows.now (get_or columns.now.rows.now s 0) (s + 1) to ≡ true }
    ensures { Advanced columns.now.starts.now columns.now.rows.now kept.now lower.now first to s (s + 1) diagonal.old values.old diagonal.new values.new }
{
    let k = columns.rows[s] as usize;
    let v = kept[s - first];
    diagonal[k] = diagonal[k] - lower[s - first] * v;
    less_along(columns, values, lower, k, first, s + 1, to, v);
}

// The same for any rows behind it; their slots are noted in `places`. O(rows of its column).
pub(crate) fn row_down(
    columns: &Columns,
    diagonal: &mut [f64],
    values: &mut [f64],
    kept: &[f64],
    lower: &[f64],
    places: &mut [u32],
    first: usize,
    s: usize,
    to: usize,
)
    requires { AtRow columns.now.starts.now columns.now.rows.now (length diagonal.old) (length values.old) (length kept.now) (length lower.now) first s to × (to - first ≤ length places.old) }
    ensures advanced { Advanced columns.now.starts.now columns.now.rows.now kept.now lower.now first to s (s + 1) diagonal.old values.old diagonal.new values.new }
    ensures placed { Placed places.new columns.now.starts.now columns.now.rows.now (get_or columns.now.rows.now s 0) first (get_or columns.now.starts.now (get_or columns.now.rows.now s 0) 0) (s + 1) to }
{
    let k = columns.rows[s] as usize;
    let v = kept[s - first];
    diagonal[k] = diagonal[k] - lower[s - first] * v;
    less_down(columns, values, lower, places, k, first, s + 1, to, v);
}

// The same where `places` tells the slots: each is `shift` behind the one noted. O(to − s).
pub(crate) fn row_known(
    columns: &Columns,
    diagonal: &mut [f64],
    values: &mut [f64],
    kept: &[f64],
    lower: &[f64],
    places: &[u32],
    first: usize,
    s: usize,
    to: usize,
    shift: usize,
)
    requires at_row { AtRow columns.now.starts.now columns.now.rows.now (length diagonal.old) (length values.old) (length kept.now) (length lower.now) first s to × (to - first ≤ length places.now) }
    requires shift_bound { (shift ≤ get_or columns.now.starts.now (get_or columns.now.rows.now s 0) 0) × Placed places.now columns.now.starts.now columns.now.rows.now (get_or columns.now.rows.now s 0) first (get_or columns.now.starts.now (get_or columns.now.rows.now s 0) 0 - shift) (s + 1) to }
    ensures { Advanced columns.now.starts.now columns.now.rows.now kept.now lower.now first to s (s + 1) diagonal.old values.old diagonal.new values.new }
{
    let k = columns.rows[s] as usize;
    let v = kept[s - first];
    diagonal[k] = diagonal[k] - lower[s - first] * v;
    less_known(
        columns,
        values,
        lower,
        places,
        k,
        first,
        s + 1,
        to,
        shift,
        v,
    );
}
