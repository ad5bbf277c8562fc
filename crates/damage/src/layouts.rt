// Questions over layouts, sound and damaged, asked of the proved code and of the naive code.
use crate::borders::borders;
use crate::counts::{Counts, DRAWN_LAYOUTS, Operation};
use crate::draft::{Draft, Field, Lent};
use crate::drawn::drawn_draft;
use crate::slots::{ask_slots, leads_home};
use naive::{NaiveColumn, NaivePair, NodeLists, Refused};
use plan::{PairAnswer, Refusal, Span};

// kept: compared by hand, here and below, for the two are types apart: `naive` shares none with the library.
fn same_pair(answer: Result<PairAnswer, Refusal>, want: Result<NaivePair, Refused>) -> bool {
    match (answer, want) {
        (Ok(PairAnswer::Slot(slot)), Ok(NaivePair::Slot(want))) => slot as usize == want,
        (Ok(PairAnswer::Diagonal), Ok(NaivePair::Diagonal)) => true,
        (Ok(PairAnswer::NoSlot), Ok(NaivePair::NoSlot)) => true,
        (Err(refusal), Err(want)) => refusal.number() == want.0,
        _ => false,
    }
}

// The question about a pair. Where it has a slot, the way back is asked too.
fn ask_pair(c: &mut Counts, l: NodeLists, a: usize, b: usize) {
    let want = naive::slot_of_pair(l, a, b);
    let answer = layout::slot_of_pair(l.nodes, l.starts, l.entries, a, b);
    let same = same_pair(answer, want) && leads_home(l, a, b, answer);
    c.count(Operation::Pair, want.err(), same);
}

// Whether a span goes from one place up to another.
fn is_span(span: Span, first: usize, end: usize) -> bool {
    span.start == first && end.checked_sub(first) == Some(span.count)
}

// Whether a column's rows and their span are as wanted: none where the question is refused.
fn same_column(
    answer: Result<(), Refusal>,
    column: &[u16],
    span: Span,
    rows: &[u16],
    want: Result<NaiveColumn, Refused>,
) -> bool {
    match (answer, want) {
        (Ok(()), Ok(NaiveColumn { first, end })) => {
            is_span(span, first, end) && column == rows.get(first..end).unwrap_or(rows)
        }
        (Err(refusal), Err(want)) => {
            is_span(span, 0, 0) && column.is_empty() && refusal.number() == want.0
        }
        _ => false,
    }
}

fn ask_column(c: &mut Counts, l: NodeLists, j: usize) {
    let want = naive::column(l, j);
    let column = layout::column_rows(l.nodes, l.starts, l.entries, j);
    let answer = layout::column_refusal(l.nodes, l.starts, l.entries, j);
    let span = layout::column_span(l.nodes, l.starts, l.entries, j);
    let same = same_column(answer, column, span, l.entries, want);
    c.count(Operation::Column, want.err(), same);
}

// Pairs of position a with those below `end`.
fn ask_pairs(c: &mut Counts, l: NodeLists, a: usize, end: usize) {
    for b in 0..end {
        ask_pair(c, l, a, b);
    }
}

// Every question about positions below `end`.
fn ask_all(c: &mut Counts, l: NodeLists, end: usize) {
    for a in 0..end {
        ask_column(c, l, a);
        ask_pairs(c, l, a, end);
    }
}

// Every question over a draft's layout, about its slots, the positions of n nodes and two beyond.
fn ask_draft(c: &mut Counts, d: &Draft, n: usize) {
    let l = d.columns();
    ask_all(c, l, n % 65536 + 2);
    ask_slots(c, l);
}

// A draft lent as a layout: with n + 1 column starts.
fn as_layout(d: &Draft) -> Draft {
    d.with_length(Lent::ColumnStarts, d.n % 65536 + 1)
}

fn every_border(c: &mut Counts, d: &Draft, field: Field, i: usize) {
    for x in borders(d.entry(field, i), d.n, d.p, d.s) {
        ask_draft(c, &d.with_entry(field, i, x), d.n);
    }
}

fn every_entry(c: &mut Counts, d: &Draft, field: Field) {
    for i in 0..d.entries(field) {
        every_border(c, d, field, i);
    }
}

// Column starts or rows of other lengths.
fn every_length(c: &mut Counts, d: &Draft, lent: Lent) {
    for length in 0..d.enough(lent) % 65536 + 2 {
        ask_draft(c, &d.with_length(lent, length), d.n);
    }
}

// Every question over a draft's layout as it is.
pub(crate) fn ask_layout(c: &mut Counts, d: &Draft) {
    ask_draft(c, &as_layout(d), d.n);
}

// A layout as it is; with each border in each column start, each row and n; and with other lengths.
pub(crate) fn every_question(c: &mut Counts, d: &Draft) {
    let s = as_layout(d);
    ask_draft(c, &s, d.n);
    for field in [Field::ColumnStarts, Field::Rows, Field::N] {
        every_entry(c, &s, field);
    }
    every_length(c, &s, Lent::ColumnStarts);
    every_length(c, &s, Lent::Rows);
}

// Layouts that no planner made.
pub(crate) fn all_drawn(c: &mut Counts) {
    for seed in 0..500u64 {
        c.begin(DRAWN_LAYOUTS, seed);
        ask_layout(c, &drawn_draft(seed));
    }
}
