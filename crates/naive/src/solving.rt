// The solution of document 02's E9, over the dense matrix of the factorization: every pair of a column and a row is looked at, in the order of the
// sentence. Refusals 28 and 13 are right for every plan; the others, and the solution, for at most 64 nodes, and `TOO_LARGE` stands for them beyond.
use crate::factoring::{cell, check_values, first_values, pivot_fails, rows_of, spread};
use crate::given::{GivenPlan, GivenValues};
use crate::refused::{Refused, refused_if};
use crate::sets::has;

// l times entry k "is subtracted from" entry t.
fn subtract(x: &mut [f64; 64], l: f64, k: usize, t: usize) {
    let product = l * x[k % 64];
    x[t % 64] -= product;
}

// "The rows ascending, l times the column's entry is subtracted from the row's", in column j, whose rows are s.
fn forward_column(x: &mut [f64; 64], m: &[f64; 4096], s: u64, j: usize) {
    for i in (0..64usize).filter(|i| has(s, *i)) {
        subtract(x, cell(m, j, i), j, i);
    }
}

// "Columns ascending".
fn forward(x: &mut [f64; 64], m: &[f64; 4096], sets: &[u64; 64]) {
    for (j, s) in sets.iter().enumerate() {
        forward_column(x, m, *s, j);
    }
}

// "Each entry is divided by its pivot".
fn divide(x: &mut [f64; 64], m: &[f64; 4096], n: usize) {
    for (j, entry) in x.iter_mut().enumerate().take(n) {
        *entry /= cell(m, j, j);
    }
}

// "In each the rows ascending, l times the row's entry is subtracted from the column's".
fn backward_column(x: &mut [f64; 64], m: &[f64; 4096], s: u64, j: usize) {
    for i in (0..64usize).filter(|i| has(s, *i)) {
        subtract(x, cell(m, j, i), i, j);
    }
}

// "Columns descending".
fn backward(x: &mut [f64; 64], m: &[f64; 4096], sets: &[u64; 64]) {
    for (j, s) in sets.iter().enumerate().rev() {
        backward_column(x, m, *s, j);
    }
}

// The checks of the factorization, the vector's length among them, then 31: "the vector (n long) included, then 31 for every pivot, before anything is
// changed".
fn check_solve(plan: GivenPlan, lent: GivenValues, vector: &[f64]) -> Result<(), Refused> {
    check_values(plan, lent)?;
    refused_if(vector.len() != plan.columns.nodes, 30)?;
    refused_if(lent.diagonal.iter().any(|d| pivot_fails(*d)), 31)
}

// What solving hands out: the first entries of the vector as they are left, 0 behind its end. A refusal leaves the vector as found.
pub fn solve(plan: GivenPlan, lent: GivenValues, vector: &[f64]) -> Result<[f64; 64], Refused> {
    check_solve(plan, lent, vector)?;
    let columns = plan.columns;
    let m = spread(columns, lent);
    let sets = rows_of(columns);
    let mut x = first_values(vector);
    forward(&mut x, &m, &sets);
    divide(&mut x, &m, columns.nodes);
    backward(&mut x, &m, &sets);
    Ok(x)
}
