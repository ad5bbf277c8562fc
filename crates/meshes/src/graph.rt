// Graphs of at most 64 nodes as dense matrices, and the neighbour lists that are lent for them.
use crate::lent::{Case, least};

// Puts w next to v in the matrix.
fn put_neighbour(cells: &mut [u8; 4096], v: u8, w: u8) {
    if v < 64 && w < 64 {
        cells[v as usize * 64 + w as usize] = 1;
    }
}

pub(crate) fn join(cells: &mut [u8; 4096], v: u8, w: u8) {
    if v != w {
        put_neighbour(cells, v, w);
        put_neighbour(cells, w, v);
    }
}

fn joined(cells: &[u8; 4096], v: u8, w: u8) -> bool {
    v < 64 && w < 64 && cells[v as usize * 64 + w as usize] == 1
}

// How many neighbours v has.
fn degree(cells: &[u8; 4096], v: u8) -> usize {
    (0..64u8).filter(|w| joined(cells, v, *w)).count()
}

// Joins v and w where both have fewer than `most` neighbours.
pub(crate) fn join_within(cells: &mut [u8; 4096], most: usize, v: u8, w: u8) {
    if degree(cells, v) < most && degree(cells, w) < most {
        join(cells, v, w);
    }
}

// Writes v's list and gives where the next one goes.
fn put_list(neighbours: &mut [u16; 4096], at: usize, cells: &[u8; 4096], v: u8) -> usize {
    let mut end = at;
    for w in 0..64u8 {
        if joined(cells, v, w) && end < 4096 {
            neighbours[end] = u16::from(w);
            end += 1;
        }
    }
    end
}

// The lists of the graph's first n nodes, with results of the least lengths that are enough.
pub(crate) fn lists(n: u8, cells: &[u8; 4096]) -> Case {
    let mut starts = [0u32; 72];
    let mut neighbours = [0u16; 4096];
    let mut at = 0usize;
    for (end, v) in starts.iter_mut().skip(1).zip(0..n) {
        at = put_list(&mut neighbours, at, cells, v);
        *end = (at % 65536) as u32;
    }
    Case {
        n: n as usize,
        starts,
        start_count: n as usize + 1,
        neighbours,
        entry_count: at,
        lengths: least(n),
    }
}

// The mesh of n nodes whose edges are the pairs of `edges`.
pub fn from_edges(n: u8, edges: &[u8]) -> Case {
    let mut cells = [0u8; 4096];
    for pair in edges.chunks_exact(2) {
        if let [v, w] = pair {
            join(&mut cells, *v, *w);
        }
    }
    lists(n, &cells)
}

// A star: node 0 next to so many leaves, at most 63.
pub fn star(leaves: u8) -> Case {
    let mut cells = [0u8; 4096];
    for w in 1..=leaves.min(63) {
        join(&mut cells, 0, w);
    }
    lists(leaves % 64 + 1, &cells)
}

// The pairs of five nodes.
const PAIRS: [(u8, u8); 10] = [
    (0, 1),
    (0, 2),
    (1, 2),
    (0, 3),
    (1, 3),
    (2, 3),
    (0, 4),
    (1, 4),
    (2, 4),
    (3, 4),
];

// The mesh of n nodes, at most 5, whose edges are the pairs whose bits `number` has.
pub fn numbered(n: u8, number: u64) -> Case {
    let mut cells = [0u8; 4096];
    let mut bits = number;
    for (v, w) in PAIRS {
        if bits % 2 == 1 {
            join(&mut cells, v, w);
        }
        bits /= 2;
    }
    lists(n, &cells)
}
