// Plans with two rows changed, and with two rows more, so that faults of 17 and of 18 stand in every order: in an earlier, the same and a later
// column, in one row, in rows that do not ascend, and on both sides of columns without a fault. Each is written and its file read.
use crate::counts::Counts;
use crate::draft::{Draft, Field};
use crate::drafts::try_both;
use meshes::more;
use std::array::IntoIter;
use std::iter::Chain;
use std::ops::RangeInclusive;

// The numbers that are tried as a row: every position, n, 4,096 and 65,535.
fn numbers(d: &Draft) -> Chain<RangeInclusive<usize>, IntoIter<usize, 2>> {
    (0..=d.n).chain([4096, 65535])
}

// The rows from `from` on, each a place later.
fn move_rows(d: &mut Draft, from: usize) {
    if from <= d.s && d.s < 2100 {
        d.lists.rows.copy_within(from..d.s, from + 1);
    }
}

// The columns behind column j, each starting a place later.
fn move_starts(d: &mut Draft, j: usize) {
    let starts = d.lists.column_starts.iter_mut();
    for start in starts.take(more(d.n)).skip(more(j)) {
        *start = start.saturating_add(1);
    }
}

// Row x more at the end of column j.
fn with_row(mut d: Draft, j: usize, x: usize) -> Draft {
    let end = d.entry(Field::ColumnStarts, more(j));
    move_rows(&mut d, end);
    move_starts(&mut d, j);
    d.s = more(d.s);
    d.with_entry(Field::Rows, end, x)
}

// Each number as the row of this slot.
fn every_number_at(c: &mut Counts, d: &Draft, slot: usize) {
    for x in numbers(d) {
        try_both(c, &d.with_entry(Field::Rows, slot, x));
    }
}

// Each number as the row of each slot from `first` on.
fn every_change_from(c: &mut Counts, d: &Draft, first: usize) {
    for slot in first..d.s {
        every_number_at(c, d, slot);
    }
}

// Each number as the row of this slot, and each as that of each later slot.
fn every_change_with(c: &mut Counts, d: &Draft, slot: usize) {
    for x in numbers(d) {
        every_change_from(c, &d.with_entry(Field::Rows, slot, x), more(slot));
    }
}

// Two rows changed: each two slots, with each two numbers.
pub(crate) fn every_two_changed(c: &mut Counts, d: &Draft) {
    for slot in 0..d.s {
        every_change_with(c, d, slot);
    }
}

// Each number as one row more in column j.
fn every_number_in(c: &mut Counts, d: &Draft, j: usize) {
    for x in numbers(d) {
        try_both(c, &with_row(*d, j, x));
    }
}

// Each number as one row more in each column from `first` on.
fn every_row_from(c: &mut Counts, d: &Draft, first: usize) {
    for j in first..d.n {
        every_number_in(c, d, j);
    }
}

// Each number as one row more in column j, and each as another in the same and in each later column.
fn every_row_with(c: &mut Counts, d: &Draft, j: usize) {
    for x in numbers(d) {
        every_row_from(c, &with_row(*d, j, x), j);
    }
}

// One row more, and two rows more: in each two columns, and in each column twice, with each two numbers.
pub(crate) fn every_two_more(c: &mut Counts, d: &Draft) {
    every_row_from(c, d, 0);
    for j in 0..d.n {
        every_row_with(c, d, j);
    }
}
