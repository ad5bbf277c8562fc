// The factorization of document 02's E8, over a dense matrix of floats: a plan's values are spread over it, the columns are worked through in the
// words of the sentence, and what is left is gathered. Refusals 28 and 13 are right for every plan; the others, and what is left, for at most
// 64 nodes, and `TOO_LARGE` stands for them beyond.
use crate::file::check_lent;
use crate::given::{GivenPlan, GivenValues, NodeLists};
use crate::lists::{entries, nodes_in};
use crate::refused::{Refused, refused_if};
use crate::sets::{has, only, row, without};

// The greatest float that is finite.
const GREATEST: f64 = 1.7976931348623157e308;

// The report of factoring.
#[derive(Clone, Copy)]
pub struct NaiveReport {
    pub smallest: f64,
    pub largest: f64,
    pub operations: u64,
}

// What factoring hands out: the answer, and the first values of both buffers as they are left, 0 behind their ends, which 31 changes too.
// `strays` counts the pairs of two different rows in a column that have no slot, over all columns, where the plan's own checks pass.
#[derive(Clone, Copy)]
pub struct NaiveFactor {
    pub answer: Result<NaiveReport, Refused>,
    pub strays: u64,
    pub diagonal: [f64; 64],
    pub values: [f64; 2016],
}

// The matrix has a cell for each column and row below 64.
pub(crate) fn cell(m: &[f64; 4096], j: usize, i: usize) -> f64 {
    m[j % 64 * 64 + i % 64]
}

fn put_cell(m: &mut [f64; 4096], j: usize, i: usize, x: f64) {
    m[j % 64 * 64 + i % 64] = x;
}

// The first values that are lent, 0 behind their end.
// kept: entry by entry, for `copy_from_slice` asks for equal lengths: both lists would have to be cut first.
pub(crate) fn first_values<const N: usize>(lent: &[f64]) -> [f64; N] {
    let mut list = [0.0; N];
    for (x, y) in list.iter_mut().zip(lent.iter()) {
        *x = *y;
    }
    list
}

// Puts the values of column j's slots into its cells.
fn spread_column(m: &mut [f64; 4096], columns: NodeLists, values: &[f64], j: usize) {
    let slots = entries(columns.starts, values, j);
    for (i, x) in columns.list(j).iter().zip(slots) {
        put_cell(m, j, usize::from(*i), *x);
    }
}

// The matrix of a layout.
pub(crate) fn spread(columns: NodeLists, lent: GivenValues) -> [f64; 4096] {
    let mut m = [0.0; 4096];
    for (j, x) in lent.diagonal.iter().enumerate().take(columns.nodes) {
        put_cell(&mut m, j, j, *x);
        spread_column(&mut m, columns, lent.values, j);
    }
    m
}

fn gather_diagonal(n: usize, m: &[f64; 4096]) -> [f64; 64] {
    let mut list = [0.0; 64];
    for (j, x) in list.iter_mut().enumerate().take(n) {
        *x = cell(m, j, j);
    }
    list
}

// Puts what stands in column j's cells into its slots.
fn gather_column(list: &mut [f64; 2016], columns: NodeLists, m: &[f64; 4096], j: usize) {
    // a slice, since `skip` takes a step for each slot that it leaves out
    let from = columns.start(j).min(list.len());
    for (x, i) in list[from..].iter_mut().zip(columns.list(j)) {
        *x = cell(m, j, usize::from(*i));
    }
}

fn gather_values(columns: NodeLists, m: &[f64; 4096]) -> [f64; 2016] {
    let mut list = [0.0; 2016];
    for j in 0..columns.nodes {
        gather_column(&mut list, columns, m, j);
    }
    list
}

// The rows of each column.
pub(crate) fn rows_of(columns: NodeLists) -> [u64; 64] {
    let mut sets = [0u64; 64];
    for (j, s) in sets.iter_mut().enumerate().take(columns.nodes) {
        *s = nodes_in(columns.list(j));
    }
    sets
}

// Column j's values before the division: "column values v".
fn column_values(m: &[f64; 4096], j: usize) -> [f64; 64] {
    let mut v = [0.0; 64];
    for (i, x) in v.iter_mut().enumerate() {
        *x = cell(m, j, i);
    }
    v
}

// "With pivot d and column values v, every l is v / d", for the rows of s. Gives how many divisions there were.
fn divide(m: &mut [f64; 4096], s: u64, j: usize) -> u64 {
    let d = cell(m, j, j);
    let mut done = 0u64;
    for i in 0..64usize {
        if has(s, i) {
            let v = cell(m, j, i);
            put_cell(m, j, i, v / d);
            done = done.saturating_add(1);
        }
    }
    done
}

// For row k of column j, and in ascending i: "l of i times v of k is subtracted at that pair". Gives how many products there were.
fn subtract_from(m: &mut [f64; 4096], s: u64, j: usize, k: usize, v: f64) -> u64 {
    let mut done = 0u64;
    for i in k..64usize {
        if has(s, i) {
            let product = cell(m, j, i) * v;
            let old = cell(m, k, i);
            put_cell(m, k, i, old - product);
            done = done.saturating_add(1);
        }
    }
    done
}

// "For each pair of rows k ≤ i in that column, in ascending k".
fn subtract(m: &mut [f64; 4096], s: u64, j: usize, v: &[f64; 64]) -> u64 {
    let mut done = 0u64;
    for (k, x) in v.iter().enumerate() {
        if has(s, k) {
            done = done.saturating_add(subtract_from(m, s, j, k, *x));
        }
    }
    done
}

// Column j, whose rows are s. Gives how many operations there were.
fn eliminate_column(m: &mut [f64; 4096], s: u64, j: usize) -> u64 {
    let v = column_values(m, j);
    let divisions = divide(m, s, j);
    divisions.saturating_add(subtract(m, s, j, &v))
}

// 31: "a pivot that is not both finite and above zero".
pub(crate) fn pivot_fails(d: f64) -> bool {
    !(0.0 < d && d <= GREATEST)
}

// "Columns go in ascending order", up to the first whose pivot fails. Gives how many operations there were.
fn eliminate(m: &mut [f64; 4096], n: usize, sets: &[u64; 64]) -> Result<u64, Refused> {
    let mut done = 0u64;
    for (j, s) in sets.iter().enumerate().take(n) {
        refused_if(pivot_fails(cell(m, j, j)), 31)?;
        done = done.saturating_add(eliminate_column(m, *s, j));
    }
    Ok(done)
}

// The pivots stay on the diagonal.
fn smallest(n: usize, m: &[f64; 4096]) -> f64 {
    (0..n).fold(GREATEST, |d, j| d.min(cell(m, j, j)))
}

fn largest(n: usize, m: &[f64; 4096]) -> f64 {
    (0..n).fold(0.0, |d, j| d.max(cell(m, j, j)))
}

// The pairs of two rows of s that have no slot, which no subtraction may aim at.
fn strays_of(columns: &[u64; 64], s: u64) -> u64 {
    let mut aimed = s;
    let mut found = 0u64;
    for (k, column) in columns.iter().enumerate() {
        if has(s, k) {
            aimed = without(aimed, only(k));
            found = found.saturating_add(u64::from(without(aimed, *column).count_ones()));
        }
    }
    found
}

fn strays(columns: &[u64; 64]) -> u64 {
    columns.iter().fold(
        0u64,
        |found, s| found.saturating_add(strays_of(columns, *s)),
    )
}

// The report on a matrix of n columns that are all worked through, with so many operations.
fn report(n: usize, m: &[f64; 4096], operations: u64) -> NaiveReport {
    NaiveReport {
        smallest: smallest(n, m),
        largest: largest(n, m),
        operations,
    }
}

// The factorization of a plan whose checks pass, with n values by position and one for each slot.
fn factored(columns: NodeLists, lent: GivenValues) -> NaiveFactor {
    let n = columns.nodes;
    let sets = rows_of(columns);
    let mut m = spread(columns, lent);
    let done = eliminate(&mut m, n, &sets);
    NaiveFactor {
        answer: done.map(|operations| report(n, &m, operations)),
        strays: strays(&sets),
        diagonal: gather_diagonal(n, &m),
        values: gather_values(columns, &m),
    }
}

// Checks 28, 13 and 15 to 19 are the writer's; then 29, "more than one unknown for each node", and 30, "a value buffer of another length than needed".
pub(crate) fn check_values(plan: GivenPlan, lent: GivenValues) -> Result<(), Refused> {
    check_lent(plan)?;
    refused_if(1 < plan.unknowns, 29)?;
    lent.check(plan.columns.nodes, plan.slots)
}

// What factoring hands out. 31 comes as the columns are reached; other refusals leave both buffers as found.
pub fn factor(plan: GivenPlan, lent: GivenValues) -> NaiveFactor {
    match check_values(plan, lent) {
        Ok(()) => factored(plan.columns, lent),
        Err(refusal) => NaiveFactor {
            answer: Err(refusal),
            strays: 0,
            diagonal: first_values(lent.diagonal),
            values: first_values(lent.values),
        },
    }
}
