// What a planner is lent: a mesh, and results of some lengths.
ghost use Rattle.std.specs.Prelude.{◌≡◌, ◌+◌, ◌-◌, ◌%◌, take};

use crate::buffers::first;
use naive::{NodeLists, Room};

// The lengths of the lent results. The rows have room for the slots and `rows_more`, less `rows_less`.
#[derive(Clone, Copy)]
pub struct Lengths {
    pub order: usize,
    pub positions: usize,
    pub sizes: usize,
    pub parents: usize,
    pub column_starts: usize,
    pub rows_more: usize,
    pub rows_less: usize,
}

impl Lengths {
    // The lengths where there are so many slots.
    pub fn room(self, slots: usize) -> Room
        ensures { result ≡ record { order = self.order; positions = self.positions; sizes = self.sizes; parents = self.parents; column_starts = self.column_starts; rows = slots % 4294967296 + self.rows_more % 65536 - self.rows_less } }
    {
        let most = slots % 4294967296 + self.rows_more % 65536;
        Room {
            order: self.order,
            positions: self.positions,
            sizes: self.sizes,
            parents: self.parents,
            column_starts: self.column_starts,
            rows: most.saturating_sub(self.rows_less),
        }
    }
}

// The least lengths that are enough for n nodes.
pub fn least(n: u8) -> Lengths
    ensures { result ≡ record { order = n; positions = n; sizes = n; parents = n; column_starts = n + 1; rows_more = 0; rows_less = 0 } }
{
    let size = n as usize;
    Lengths {
        order: size,
        positions: size,
        sizes: size,
        parents: size,
        column_starts: size + 1,
        rows_more: 0,
        rows_less: 0,
    }
}

// What a planner is lent: n, the first of the starts and of the neighbours, and results of these lengths.
// kept: arrays with lengths beside, for memory is fixed.
#[derive(Clone, Copy)]
pub struct Case {
    pub n: usize,
    pub starts: [u32; 72],
    pub start_count: usize,
    pub neighbours: [u16; 4096],
    pub entry_count: usize,
    pub lengths: Lengths,
}

impl Case {
    // The mesh as it is lent.
    pub fn mesh<'a>(&'a self) -> NodeLists<'a>
        ensures nodes { result.nodes ≡ self.now.n }
        ensures starts { result.starts.now ≡ take self.now.start_count self.now.starts }
        ensures entries { result.entries.now ≡ take self.now.entry_count self.now.neighbours }
    {
        NodeLists {
            nodes: self.n,
            starts: first(&self.starts, self.start_count),
            entries: first(&self.neighbours, self.entry_count),
        }
    }
}

// kept: starts and entries each by functions of their own, for a `u32` has no `From` into `usize`: one for both needs a trait of its own.
pub(crate) fn start(c: Case, v: usize) -> usize {
    c.starts.get(v).map_or(0, |x| *x as usize)
}

pub(crate) fn entry(c: Case, e: usize) -> usize {
    c.neighbours.get(e).map_or(0, |x| usize::from(*x))
}

pub(crate) fn with_start(mut c: Case, v: usize, x: usize) -> Case {
    if v < 72 {
        c.starts[v] = (x % 4294967296) as u32;
    }
    c
}

pub(crate) fn with_entry(mut c: Case, e: usize, x: usize) -> Case {
    if e < 4096 {
        c.neighbours[e] = (x % 65536) as u16;
    }
    c
}
