// Questions about slots that tell misreadings apart.
use crate::questions::{LAYOUT, bare, with_rows, with_starts};
use crate::show::{print_pair_of_slot, print_title};
use meshes::first;
use naive::NodeLists;
use plan::Plan;
use std::io;

// The question about a slot.
fn ask_slot(rt: &impl Print, title: u8, layout: NodeLists, s: usize) -> io::Result<()> {
    let NodeLists {
        nodes,
        starts,
        entries,
    } = layout;
    print_title(rt, title)?;
    print_pair_of_slot(rt, layout::pair_of_slot(nodes, starts, entries, s))
}

// The question about each of these.
fn ask_slots(rt: &impl Print, title: u8, layout: NodeLists, slots: &[usize]) -> io::Result<()> {
    for s in slots {
        ask_slot(rt, title, layout, *s)?;
    }
    Ok(())
}

// Numbers that are no slot's of mesh 4, some with a slot's number in their low 16 or 32 bits.
const NO_SLOTS: [usize; 7] = [
    5,
    6,
    65536,
    4294967295,
    4294967296,
    4294967300,
    18446744073709551615,
];

// The layout of mesh 4: every slot; numbers that are no slot's; and rows that are longer than the last start.
fn of_path(rt: &impl Print) -> io::Result<()> {
    let longer = with_rows(&[1, 4, 3, 4, 4, 0, 9, 0]);
    ask_slots(rt, 121, LAYOUT, &[0, 1, 2, 3, 4])?;
    ask_slots(rt, 122, LAYOUT, &NO_SLOTS)?;
    ask_slots(rt, 123, longer, &[4, 5, 7, 8])
}

fn lists<'a>(nodes: usize, starts: &'a [u32], entries: &'a [u16]) -> NodeLists<'a> {
    NodeLists {
        nodes,
        starts,
        entries,
    }
}

// Columns without rows, which share their start with the next: at the front, between others and at the end; and layouts without slots.
fn empty_columns(rt: &impl Print) -> io::Result<()> {
    let spread = lists(8, &[0, 0, 0, 2, 2, 2, 4, 4, 4], &[3, 7, 6, 7]);
    ask_slots(rt, 124, spread, &[0, 1, 2, 3, 4])?;
    ask_slot(rt, 124, lists(4, &[0, 0, 0, 1, 1], &[3]), 0)?;
    ask_slot(rt, 124, lists(4, &[0, 1, 1, 1, 1], &[3]), 0)?;
    ask_slot(rt, 125, bare(1, &[0, 0]), 0)?;
    ask_slot(rt, 125, lists(3, &[0, 0, 0, 0], &[1, 2, 2]), 0)
}

// The numbers of nodes at both ends, and just outside.
fn limits(rt: &impl Print) -> io::Result<()> {
    let zeros = [0u32; Plan::NODES + 2];
    let mut starts = [0u32; Plan::NODES + 1];
    starts[Plan::NODES - 1] = 1;
    starts[Plan::NODES] = 1;
    ask_slot(rt, 126, bare(0, &[]), 0)?;
    ask_slot(rt, 126, bare(0, &[0]), 0)?;
    ask_slot(rt, 126, bare(Plan::NODES + 1, &[]), 0)?;
    ask_slot(rt, 126, bare(Plan::NODES + 1, &zeros), 0)?;
    ask_slot(
        rt,
        126,
        bare(Plan::NODES, first(&zeros, Plan::NODES + 1)),
        0,
    )?;
    ask_slot(rt, 126, lists(Plan::NODES, &starts, &[4095]), 0)?;
    ask_slot(rt, 126, lists(2, &[0, 1, 1], &[1]), 0)
}

// Unsound layouts, for mesh 4's nodes: with a number that is no slot's, and with one whose column and row are sound.
fn unsound(rt: &impl Print) -> io::Result<()> {
    ask_slot(rt, 127, with_starts(&[0, 1, 2, 4, 5, 5, 5]), 5)?;
    ask_slot(rt, 127, with_starts(&[1, 1, 2, 4, 5, 5]), 5)?;
    ask_slot(rt, 127, with_starts(&[0, 1, 2, 4, 3, 5]), 5)?;
    ask_slot(rt, 127, with_rows(&[1, 4, 3, 4]), 5)?;
    ask_slot(rt, 127, with_rows(&[1, 4, 3, 5, 4]), 5)?;
    ask_slot(rt, 127, bare(5, &[]), 0)?;
    ask_slot(rt, 128, with_starts(&[0, 1, 2, 4, 5]), 0)?;
    ask_slot(rt, 128, with_starts(&[0, 1, 2, 4, 5, 5, 5]), 0)?;
    ask_slot(rt, 128, with_starts(&[1, 1, 2, 4, 5, 5]), 4)?;
    ask_slot(rt, 128, with_starts(&[0, 2, 1, 4, 5, 5]), 4)?;
    ask_slot(rt, 128, with_starts(&[0, 1, 2, 4, 3, 5]), 0)?;
    ask_slot(rt, 128, with_rows(&[1, 4, 3, 4]), 0)?;
    ask_slot(rt, 128, with_rows(&[0, 4, 3, 4, 4]), 4)?;
    ask_slot(rt, 128, with_rows(&[1, 4, 3, 4, 5]), 0)?;
    ask_slot(rt, 128, with_rows(&[1, 4, 4, 3, 4]), 0)
}

pub(crate) fn all(rt: &impl Print) -> io::Result<()> {
    of_path(rt)?;
    empty_columns(rt)?;
    limits(rt)?;
    unsound(rt)
}
