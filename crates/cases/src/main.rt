// Document 01's worked meshes and files, and meshes, files and questions that tell misreadings apart: the answer to each and every lent buffer
// are written. A buffer holds 60,000 before, bytes 77. Each call tells its buffers' lengths: some are too short, some just enough, most longer, so
// that what stands behind the entries used is seen too.
// Cost: a fixed run; every function is linear in what it is lent, or plans or reads it once.
#![tactic(auto)]

mod files;
mod long_lists;
mod questions;
mod results;
mod row_faults;
mod show;
mod slots;
mod versions;

use crate::results::{Results, room};
use crate::show::{print_answer, print_entries, print_family, print_results, print_title};
use mesh::LentMesh;
use meshes::{first, from_edges, front};
use naive::Room;
use plan::Plan;
use std::io;

// A mesh by its lists.
pub(crate) fn lent<'a>(nodes: usize, starts: &'a [u32], neighbours: &'a [u16]) -> LentMesh<'a> {
    LentMesh {
        nodes,
        starts,
        neighbours,
    }
}

// A mesh planned with so many unknowns for each node into results of these lengths.
fn plan_lent(rt: &impl Print, unknowns: usize, mesh: &LentMesh, room: Room) -> io::Result<()> {
    let mut results = Results::new();
    let answer = planner::plan(
        unknowns,
        mesh,
        front(&mut results.order, room.order),
        front(&mut results.positions, room.positions),
        front(&mut results.sizes, room.sizes),
        front(&mut results.parents, room.parents),
        front(&mut results.column_starts, room.column_starts),
        front(&mut results.rows, room.rows),
    );
    print_answer(rt, answer)?;
    print_results(rt, &results, room)
}

// A mesh of n nodes by its edges, planned into results of n + 1 entries, one more for the columns, and rows of this length.
fn plan_edges(rt: &impl Print, title: u8, n: u8, edges: &[u8], slots: usize) -> io::Result<()> {
    print_title(rt, title)?;
    let c = from_edges(n, edges);
    let m = c.mesh();
    let mesh = lent(m.nodes, m.starts, m.entries);
    plan_lent(rt, 1, &mesh, room(n.saturating_add(1), slots))
}

// A mesh with so many unknowns for each node, planned into results of this length, one more for the columns, and rows of their length.
pub(crate) fn plan_unknowns(
    rt: &impl Print,
    title: u8,
    unknowns: usize,
    mesh: LentMesh,
    length: u8,
    slots: usize,
) -> io::Result<()> {
    print_title(rt, title)?;
    plan_lent(rt, unknowns, &mesh, room(length, slots))
}

// A mesh with one unknown for each node.
pub(crate) fn plan_lists(
    rt: &impl Print,
    title: u8,
    mesh: LentMesh,
    length: u8,
    slots: usize,
) -> io::Result<()> {
    plan_unknowns(rt, title, 1, mesh, length, slots)
}

// n nodes without entries: the answer, the last entries of each buffer and the entry behind them.
fn plan_bare(rt: &impl Print, title: u8, n: usize) -> io::Result<()> {
    print_title(rt, title)?;
    let starts = [0u32; Plan::NODES + 2];
    let mut order = [60000u16; Plan::NODES + 1];
    let mut positions = [60000u16; Plan::NODES + 1];
    let mut sizes = [60000u16; Plan::NODES + 1];
    let mut parents = [60000u16; Plan::NODES + 1];
    let mut column_starts = [60000u32; Plan::NODES + 2];
    let mut rows = [60000u16; 1];
    let answer = planner::plan(
        1,
        &lent(n, first(&starts, n % (Plan::NODES + 2) + 1), &[]),
        &mut order,
        &mut positions,
        &mut sizes,
        &mut parents,
        &mut column_starts,
        &mut rows,
    );
    print_answer(rt, answer)?;
    print_entries(rt, &order[Plan::NODES - 2..])?;
    print_entries(rt, &positions[Plan::NODES - 2..])?;
    print_entries(rt, &sizes[Plan::NODES - 2..])?;
    print_entries(rt, &parents[Plan::NODES - 2..])?;
    print_entries(rt, &column_starts[Plan::NODES - 1..])?;
    print_entries(rt, &rows)
}

// "Meshes worked through", 1 to 9 and 13.
fn worked(rt: &impl Print) -> io::Result<()> {
    plan_edges(rt, 1, 1, &[], 1)?;
    plan_edges(rt, 2, 2, &[], 1)?;
    plan_edges(rt, 3, 3, &[0, 1, 0, 2, 1, 2], 2)?;
    plan_edges(rt, 3, 3, &[0, 1, 0, 2, 1, 2], 3)?;
    plan_edges(rt, 4, 5, &[0, 1, 1, 2, 2, 3, 3, 4], 6)?;
    plan_edges(rt, 5, 4, &[0, 1, 1, 2, 2, 3, 0, 3], 6)?;
    plan_edges(rt, 6, 4, &[0, 1, 0, 2, 0, 3], 4)?;
    plan_lists(rt, 7, lent(0, &[0], &[]), 2, 1)?;
    plan_lists(rt, 8, lent(2, &[0, 1, 1], &[1]), 3, 1)?;
    plan_lists(rt, 9, lent(2, &[0, 2, 2], &[5, 0]), 3, 1)?;
    plan_bare(rt, 13, Plan::NODES)?;
    plan_bare(rt, 13, Plan::NODES + 1)
}

// Meshes whose order tells a misreading of the cut or of the root search.
fn telling(rt: &impl Print) -> io::Result<()> {
    plan_edges(rt, 21, 4, &[0, 1, 0, 2, 0, 3, 1, 2], 6)?;
    plan_edges(rt, 22, 4, &[0, 1, 0, 2, 1, 3], 6)?;
    plan_edges(rt, 23, 7, &[0, 1, 0, 2, 1, 3, 1, 4, 2, 5, 2, 6, 3, 5], 16)?;
    plan_edges(rt, 24, 5, &[0, 1, 0, 2, 0, 3, 0, 4, 1, 2, 1, 3, 2, 4], 12)?;
    plan_edges(rt, 25, 5, &[0, 1, 0, 2, 1, 3, 1, 4], 8)?;
    plan_edges(rt, 26, 7, &[0, 3, 0, 4, 1, 2, 1, 4, 2, 3, 3, 6, 4, 5], 16)?;
    plan_edges(rt, 27, 5, &[0, 1, 0, 2, 0, 3, 0, 4, 1, 4, 3, 4], 12)?;
    plan_edges(rt, 28, 5, &[0, 1, 0, 2, 0, 3, 0, 4, 1, 3, 3, 4], 12)?;
    plan_edges(
        rt,
        29,
        7,
        b"\x00\x01\x00\x02\x00\x03\x01\x02\x01\x03\x02\x04\x02\x05\x03\x04\x03\x05\x04\x06\x05\x06",
        24,
    )?;
    plan_edges(rt, 30, 7, &[0, 1, 1, 2, 2, 3, 3, 4, 4, 5, 5, 6], 12)
}

// Meshes that tell which neighbours a degree counts, and that a widest level is looked at. If a degree counted nodes already chosen, a region of 31
// would stay uncut, though no clique; if it counted neighbours in the last level only, 34 would be cut in another way. If the root's and a
// candidate's widest levels were not compared, a region that a cut has left in 32, and the first region of 33, would be cut in another way.
fn telling_degrees(rt: &impl Print) -> io::Result<()> {
    plan_edges(
        rt,
        31,
        7,
        b"\x00\x01\x00\x05\x01\x02\x01\x03\x01\x06\x02\x03\x02\x06\x03\x04\x04\x05\x04\x06",
        24,
    )?;
    plan_edges(
        rt,
        32,
        9,
        b"\x00\x01\x00\x02\x00\x06\x01\x04\x01\x05\x01\x07\x01\x08\x02\x03\x03\x05\x03\x07\x04\x05\x04\x08\x07\x08",
        24,
    )?;
    plan_edges(
        rt,
        33,
        7,
        b"\x00\x01\x00\x02\x00\x03\x00\x04\x01\x04\x01\x05\x02\x03\x02\x04\x02\x05\x05\x06",
        24,
    )?;
    plan_edges(rt, 34, 6, &[0, 1, 0, 2, 1, 3, 1, 4, 2, 3, 2, 5, 3, 4], 16)
}

// Meshes that tell which candidate replaces the root. If the best one did, and not the first that improves, 35 and 38 would be cut in another way;
// if the last level were taken for the widest, 35 and 37; if the widest were not looked at, 35. In 36 the first candidate is as far as the root
// and its widest level as wide: the root stays, until the second, which is farther, replaces it.
fn telling_widths(rt: &impl Print) -> io::Result<()> {
    plan_edges(rt, 35, 6, &[0, 2, 0, 3, 0, 5, 1, 3, 3, 4, 3, 5, 4, 5], 16)?;
    plan_edges(rt, 36, 5, &[0, 1, 0, 2, 1, 3, 2, 3, 2, 4], 12)?;
    plan_edges(rt, 37, 5, &[0, 1, 0, 3, 0, 4, 1, 2], 8)?;
    plan_edges(rt, 38, 7, &[0, 1, 0, 2, 0, 6, 1, 3, 1, 5, 2, 3, 2, 4], 16)
}

// Meshes whose deeper regions tell which neighbours a degree counts. If it counted nodes already chosen, in 39 only a region two cuts deep would be
// left uncut, though no clique; in 40 two nodes would not be equal, and the greater would be taken.
fn telling_deep_degrees(rt: &impl Print) -> io::Result<()> {
    plan_edges(
        rt,
        39,
        8,
        b"\x00\x01\x00\x02\x00\x06\x00\x07\x01\x04\x02\x04\x02\x05\x02\x06\x02\x07\x03\x04\x04\x06\x04\x07\x05\x06\x05\x07",
        24,
    )?;
    plan_edges(
        rt,
        40,
        7,
        b"\x00\x02\x00\x03\x00\x04\x01\x03\x01\x04\x01\x05\x01\x06\x03\x05\x04\x05\x04\x06",
        24,
    )
}

// Lists with two faults, or with buffers that are too short, that tell the order of the checks.
fn refused(rt: &impl Print) -> io::Result<()> {
    plan_lists(rt, 41, lent(0, &[], &[]), 2, 1)?;
    plan_lists(rt, 42, lent(3, &[0, 0, 0], &[]), 4, 1)?;
    plan_lists(rt, 43, lent(2, &[0, 2, 2], &[1, 0]), 3, 1)?;
    plan_lists(rt, 44, lent(3, &[0, 2, 2, 2], &[2, 1]), 4, 1)?;
    plan_lists(rt, 45, lent(2, &[0, 1, 2], &[0, 2]), 3, 1)?;
    plan_lists(rt, 46, lent(2, &[0, 1, 2], &[1, 0]), 1, 0)?;
    plan_lists(rt, 47, lent(2, &[0, 1, 2], &[1, 0]), 2, 0)
}

// A mesh that tells the order of the candidates. If they came by their own numbers, or if the last level's components were joined through the region,
// 48 would be cut in another way.
fn telling_candidates(rt: &impl Print) -> io::Result<()> {
    plan_edges(
        rt,
        48,
        6,
        &[0, 1, 0, 2, 0, 3, 0, 4, 0, 5, 1, 4, 1, 5, 2, 3],
        16,
    )
}

// The families of refusals: numbers at both ends of each range, and just outside.
fn families(rt: &impl Print) -> io::Result<()> {
    print_title(rt, 91)?;
    for number in [0, 1, 9, 10, 19, 20, 21, 22, 23, 27, 28] {
        print_family(rt, number)?;
    }
    Ok(())
}

fn main(rt: HostRuntime) -> io::Result<()> {
    worked(&rt)?;
    telling(&rt)?;
    telling_degrees(&rt)?;
    telling_widths(&rt)?;
    telling_deep_degrees(&rt)?;
    refused(&rt)?;
    telling_candidates(&rt)?;
    files::all(&rt)?;
    questions::all(&rt)?;
    families(&rt)?;
    long_lists::all(&rt)?;
    slots::all(&rt)?;
    row_faults::all(&rt)?;
    versions::all(&rt)
}
