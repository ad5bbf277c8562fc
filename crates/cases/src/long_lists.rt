// Lists of 26 entries, the most that a node may have, and of 27.
use crate::{lent, plan_lists};
use meshes::{first, star};
use std::io;

// A star whose leaves are all nodes but node 0, planned into results of this length, and rows of their length.
fn plan_star(rt: &impl Print, title: u8, leaves: u8, length: u8, slots: usize) -> io::Result<()> {
    let c = star(leaves);
    let m = c.mesh();
    let mesh = lent(m.nodes, m.starts, m.entries);
    plan_lists(rt, title, mesh, length, slots)
}

// 28 nodes of which the first has a list, and no other, planned into results that are too short.
fn plan_first(rt: &impl Print, title: u8, list: &[u16]) -> io::Result<()> {
    let mut starts = [(list.len() % 65536) as u32; 29];
    starts[0] = 0;
    plan_lists(rt, title, lent(28, &starts, list), 2, 1)
}

// 29 nodes of which the last has a list, and no other, planned likewise.
fn plan_last(rt: &impl Print, title: u8, list: &[u16]) -> io::Result<()> {
    let mut starts = [0u32; 30];
    starts[29] = (list.len() % 65536) as u32;
    plan_lists(rt, title, lent(29, &starts, list), 2, 1)
}

// The list of a star's centre, and others that begin like it, as the first node's alone: 26 comes after 4 and 6, before 7, and all of them before 8.
fn first_lists(rt: &impl Print) -> io::Result<()> {
    let c = star(27);
    let ascending = c.neighbours;
    let mut outside = c.neighbours;
    let mut swapped = c.neighbours;
    outside[26] = 28;
    swapped[0] = 2;
    swapped[1] = 1;
    plan_first(rt, 103, first(&outside, 27))?;
    plan_first(rt, 104, first(&swapped, 27))?;
    plan_first(rt, 105, first(&ascending, 27))?;
    plan_first(rt, 106, first(&ascending, 26))
}

// The same as the last node's alone: 26 comes after 5 and before 7.
fn last_lists(rt: &impl Print) -> io::Result<()> {
    let c = star(27);
    let ascending = c.neighbours;
    let mut itself = c.neighbours;
    itself[26] = 28;
    plan_last(rt, 107, first(&itself, 27))?;
    plan_last(rt, 108, first(&ascending, 27))?;
    plan_last(rt, 109, first(&ascending, 26))
}

pub(crate) fn all(rt: &impl Print) -> io::Result<()> {
    plan_star(rt, 101, 26, 28, 28)?;
    plan_star(rt, 102, 27, 29, 28)?;
    first_lists(rt)?;
    last_lists(rt)?;
    plan_star(rt, 110, 27, 2, 0)?;
    plan_star(rt, 111, 26, 2, 0)?;
    plan_star(rt, 112, 26, 27, 25)
}
