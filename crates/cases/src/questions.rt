// Questions about pairs and columns that tell misreadings apart. Where nothing else is said the layout is that of mesh 4.
use crate::files::{ROWS, STARTS};
use crate::show::{print_entries, print_number_of, print_slot_of_pair, print_title};
use naive::NodeLists;
use plan::Plan;
use std::io;

// The layout of mesh 4.
pub(crate) const LAYOUT: NodeLists<'static> = NodeLists {
    nodes: 5,
    starts: STARTS,
    entries: ROWS,
};

// The question about a pair of positions.
fn ask_pair(rt: &impl Print, title: u8, layout: NodeLists, a: usize, b: usize) -> io::Result<()> {
    let NodeLists {
        nodes,
        starts,
        entries,
    } = layout;
    print_title(rt, title)?;
    print_slot_of_pair(rt, layout::slot_of_pair(nodes, starts, entries, a, b))
}

// The question about a column: its companion's number, and the rows.
fn ask_column(rt: &impl Print, title: u8, layout: NodeLists, j: usize) -> io::Result<()> {
    let NodeLists {
        nodes,
        starts,
        entries,
    } = layout;
    print_title(rt, title)?;
    print_number_of(rt, layout::column_refusal(nodes, starts, entries, j))?;
    print_entries(rt, layout::column_rows(nodes, starts, entries, j))
}

// The layout of mesh 4: every kind of answer.
fn answered(rt: &impl Print) -> io::Result<()> {
    ask_pair(rt, 81, LAYOUT, 0, 1)?;
    ask_pair(rt, 81, LAYOUT, 4, 2)?;
    ask_pair(rt, 81, LAYOUT, 4, 0)?;
    ask_pair(rt, 81, LAYOUT, 3, 3)?;
    ask_column(rt, 82, LAYOUT, 1)?;
    ask_column(rt, 82, LAYOUT, 2)?;
    ask_column(rt, 82, LAYOUT, 3)?;
    ask_column(rt, 82, LAYOUT, 4)?;
    ask_column(rt, 83, LAYOUT, 5)?;
    ask_pair(rt, 83, LAYOUT, 5, 5)?;
    ask_pair(rt, 83, LAYOUT, 0, 5)?;
    ask_pair(rt, 83, LAYOUT, 5, 0)
}

// The layout with other column starts.
pub(crate) fn with_starts<'a>(starts: &'a [u32]) -> NodeLists<'a> {
    NodeLists {
        nodes: 5,
        starts,
        entries: ROWS,
    }
}

// The layout with other rows.
pub(crate) fn with_rows<'a>(entries: &'a [u16]) -> NodeLists<'a> {
    NodeLists {
        nodes: 5,
        starts: STARTS,
        entries,
    }
}

// A layout of so many nodes without rows.
pub(crate) fn bare<'a>(nodes: usize, starts: &'a [u32]) -> NodeLists<'a> {
    NodeLists {
        nodes,
        starts,
        entries: &[],
    }
}

// Layouts that are unsound, or look so.
fn refused(rt: &impl Print) -> io::Result<()> {
    ask_pair(rt, 84, with_starts(&[0, 1, 2, 4, 5, 5, 5]), 0, 1)?;
    ask_column(rt, 84, with_starts(&[0, 1, 2, 4, 5, 5, 5]), 2)?;
    ask_pair(rt, 85, with_rows(&[1, 4, 3, 5, 4]), 0, 1)?;
    ask_column(rt, 85, with_rows(&[1, 4, 3, 5, 4]), 0)?;
    ask_pair(rt, 86, with_rows(&[2, 4, 3, 4, 4]), 0, 2)?;
    ask_pair(rt, 87, with_rows(&[1, 4, 3, 4, 4, 0, 9, 0]), 4, 3)?;
    ask_column(rt, 87, with_rows(&[1, 4, 3, 4, 4, 0, 9, 0]), 3)?;
    ask_pair(rt, 88, bare(0, &[]), 0, 0)?;
    ask_pair(rt, 88, bare(Plan::NODES + 1, &[]), 0, 0)?;
    ask_column(rt, 88, bare(0, &[0]), 0)?;
    ask_pair(rt, 89, with_rows(&[1, 4, 3, 4]), 9, 9)?;
    ask_column(rt, 89, with_starts(&[0, 1, 2, 4, 3, 5]), 9)
}

pub(crate) fn all(rt: &impl Print) -> io::Result<()> {
    answered(rt)?;
    refused(rt)
}
