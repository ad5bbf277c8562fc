// The three passes of the solution in one vector: forward through the columns, division by the pivots, backward. A column's entry is read once and, in
// the backward pass, written once: none of the column's rows is the column itself.
ghost use Rattle.std.specs.Prelude.{◌≡◌, true, ◌+◌, ◌≤◌, ◌<◌, length};
ghost use Rattle.plan.specs.Solving.{forward_column, forward, scaled, backward_column, backward};
ghost use Rattle.factor.specs.Down.{continued};

use crate::rows::continues;
use crate::table::FilledColumns;

// kept: that the vector has an entry for each node stays a clause: it is written, and so a parameter of its own.

// Column j: l times its entry is subtracted from each row's. O(rows of the column).
fn forward_column(filled: &FilledColumns, vector: &mut [f64], j: usize)
    requires { (length vector.old ≡ filled.now.nodes) × (j < filled.now.nodes) }
    ensures { vector.new ≡ forward_column filled.now.columns.starts.now filled.now.columns.rows.now filled.now.values.now j vector.old }
{
    let x = vector[j];
    for (row, value) in filled.rows_of(j).iter().zip(filled.values_of(j)) {
        let i = *row as usize;
        vector[i] = vector[i] - *value * x;
    }
}

// Whether column j + 1 is the first row of column j, which otherwise has the same rows. O(1).
fn followed(filled: &FilledColumns, j: usize) -> bool
    requires { j < filled.now.nodes }
    ensures { result ≡ continued filled.now.columns.starts.now filled.now.columns.rows.now j (j + 1) }
{
    if filled.columns.starts[j] == filled.columns.starts[j + 1] {
        return false;
    }
    continues(&filled.columns, j, j + 1)
}

// Columns j and j + 1 where the one is followed by the other: a row's entry is read and written once for both. O(rows of the columns).
fn forward_two(filled: &FilledColumns, vector: &mut [f64], j: usize)
    requires vector_length { (length vector.old ≡ filled.now.nodes) × (j + 1 < filled.now.nodes) }
    requires j_value { continued filled.now.columns.starts.now filled.now.columns.rows.now j (j + 1) ≡ true }
    ensures { vector.new ≡ forward_column filled.now.columns.starts.now filled.now.columns.rows.now filled.now.values.now (j + 1) (forward_column filled.now.columns.starts.now filled.now.columns.rows.now filled.now.values.now j vector.old) }
{
    let to = filled.columns.starts[j + 1] as usize;
    let from = filled.columns.starts[j] as usize;
    let x = vector[j];
    let z = vector[j + 1] - filled.values[from] * x;
    vector[j + 1] = z;
    // in the next column a row's slot is so far ahead
    let ahead = to - from - 1;
    // kept: a zip of a zip, one part without its first, is no plainer than two slots that go side by side
    for s in from + 1..to {
        let t = s + ahead;
        let i = filled.columns.rows[t] as usize;
        vector[i] = vector[i] - filled.values[s] * x - filled.values[t] * z;
    }
}

// The columns ascending, two at once where one is followed by the other. O(n + slots).
pub(crate) fn forward_columns(filled: &FilledColumns, vector: &mut [f64])
    requires { length vector.old ≡ filled.now.nodes }
    ensures { vector.new ≡ forward (length vector.old) filled.now.columns.starts.now filled.now.columns.rows.now filled.now.values.now vector.old }
{
    let mut j = 0;
    // kept: a turn takes one column or two
    while j < vector.len() {
        if followed(filled, j) {
            forward_two(filled, vector, j);
            j += 2;
            continue;
        }
        forward_column(filled, vector, j);
        j += 1;
    }
}

// Each entry is divided by its pivot. O(n), several at once where the machine can.
pub(crate) fn scale(pivots: &[f64], vector: &mut [f64])
    requires { length vector.old ≤ length pivots.now }
    ensures { vector.new ≡ scaled (length vector.old) pivots.now vector.old }
{
    for (j, x) in vector.iter_mut().enumerate() {
        *x = *x / pivots[j];
    }
}

// Column j: l times each row's entry is subtracted from its own. O(rows of the column), one subtraction after the other.
fn backward_column(filled: &FilledColumns, vector: &mut [f64], j: usize)
    requires { (length vector.old ≡ filled.now.nodes) × (j < filled.now.nodes) }
    ensures { vector.new ≡ backward_column filled.now.columns.starts.now filled.now.columns.rows.now filled.now.values.now j vector.old }
{
    let mut x = vector[j];
    for (row, value) in filled.rows_of(j).iter().zip(filled.values_of(j)) {
        x = x - *value * vector[*row as usize];
    }
    vector[j] = x;
}

// The columns descending. O(n + slots).
pub(crate) fn backward_columns(filled: &FilledColumns, vector: &mut [f64])
    requires { length vector.old ≡ filled.now.nodes }
    ensures { vector.new ≡ backward (length vector.old) filled.now.columns.starts.now filled.now.columns.rows.now filled.now.values.now vector.old }
{
    for j in (0..vector.len()).rev() {
        backward_column(filled, vector, j);
    }
}
