// The questions about a pair, a slot and a column of a layout, and the companion of the last, by looking through columns and rows.
use crate::contents::rows_fail;
use crate::given::NodeLists;
use crate::lists::entry;
use crate::refused::{Refused, refused_if};

// The answer about a pair.
#[derive(Clone, Copy)]
pub enum NaivePair {
    Slot(usize),
    Diagonal,
    NoSlot,
}

// The answer about a slot: its row and its column.
#[derive(Clone, Copy)]
pub struct NaiveSlot {
    pub row: usize,
    pub column: usize,
}

// The answer about a column: where its rows begin and end.
#[derive(Clone, Copy)]
pub struct NaiveColumn {
    pub first: usize,
    pub end: usize,
}

// "starts not n + 1 long, first not 0, falling, last above the rows' length, or rows failing 17's rule"
fn no_layout(layout: NodeLists) -> bool {
    layout.starts_fail() || layout.entries.len() < layout.start(layout.nodes) || rows_fail(layout)
}

// 1, then 22.
pub(crate) fn check_layout(layout: NodeLists) -> Result<(), Refused> {
    refused_if(layout.nodes_fail(), 1)?;
    refused_if(no_layout(layout), 22)
}

// 1, 22, then 21, where the greatest position asked about is `most`.
fn check_position(layout: NodeLists, most: usize) -> Result<(), Refused> {
    check_layout(layout)?;
    refused_if(layout.nodes <= most, 21)
}

// The slot of row i in column j.
fn search(layout: NodeLists, j: usize, i: usize) -> NaivePair {
    let mut column = layout.list(j).iter();
    match column.position(|x| usize::from(*x) == i) {
        Some(k) => NaivePair::Slot(layout.start(j).saturating_add(k)),
        None => NaivePair::NoSlot,
    }
}

// A pair of positions, in either order.
pub fn slot_of_pair(layout: NodeLists, a: usize, b: usize) -> Result<NaivePair, Refused> {
    check_position(layout, a.max(b))?;
    if a == b {
        return Ok(NaivePair::Diagonal);
    }
    Ok(search(layout, a.min(b), a.max(b)))
}

// The column that has slot s between its start and its end, or n.
fn column_with(layout: NodeLists, s: usize) -> usize {
    (0..layout.nodes)
        .find(|j| layout.start(*j) <= s && s < layout.end(*j))
        .unwrap_or(layout.nodes)
}

// The pair of slot s. 27, after 1 and 22: "a slot number not below the number of slots", which is the last column start.
pub fn pair_of_slot(layout: NodeLists, s: usize) -> Result<NaiveSlot, Refused> {
    check_layout(layout)?;
    refused_if(layout.start(layout.nodes) <= s, 27)?;
    Ok(NaiveSlot {
        row: entry(layout.entries, s),
        column: column_with(layout, s),
    })
}

// A column's rows and the companion question.
pub fn column(layout: NodeLists, j: usize) -> Result<NaiveColumn, Refused> {
    check_position(layout, j)?;
    Ok(NaiveColumn {
        first: layout.start(j),
        end: layout.end(j),
    })
}
