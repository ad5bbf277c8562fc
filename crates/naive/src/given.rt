// What is lent: lists of nodes, pairs, a plan and its values, and results of some lengths.
use crate::lists::{entries, item, some_falls};
use crate::refused::{Refused, refused_if};

// The lists of so many nodes, one after the other: in a mesh the neighbours of each, in a layout the rows of its column.
#[derive(Clone, Copy)]
pub struct NodeLists<'a> {
    pub nodes: usize,
    pub starts: &'a [u32],
    pub entries: &'a [u16],
}

impl<'a> NodeLists<'a> {
    // Where v's list begins.
    pub(crate) fn start(self, v: usize) -> usize {
        item(self.starts, v) as usize
    }

    // Where it ends.
    pub(crate) fn end(self, v: usize) -> usize {
        self.start(v.saturating_add(1))
    }

    // The entries of v's list; none where there are not so many.
    pub(crate) fn list(self, v: usize) -> &'a [u16] {
        entries(self.starts, self.entries, v)
    }

    // "First not 0, falling"
    pub(crate) fn starts_fall(self) -> bool {
        self.start(0) != 0 || some_falls(self.nodes, self.starts)
    }

    // "Starts not n + 1 long, first not 0, falling"
    pub(crate) fn starts_fail(self) -> bool {
        self.starts.len().checked_sub(1) != Some(self.nodes) || self.starts_fall()
    }

    // 1: no node, or more than 4,096.
    pub(crate) fn nodes_fail(self) -> bool {
        self.nodes == 0 || 4096 < self.nodes
    }

    // Whether one of the lists fails: `fails` is told its node and its entries.
    pub(crate) fn some_list<F: Fn(usize, &[u16]) -> bool>(self, fails: F) -> bool
        requires { F.IsAlwaysCallable fails }
    {
        for v in 0..self.nodes {
            if fails(v, self.list(v)) {
                return true;
            }
        }
        false
    }
}

// Nodes of two meshes that are paired: one of the first mesh, one of the second at the same place.
#[derive(Clone, Copy)]
pub struct NodePairs<'a> {
    pub first: &'a [u16],
    pub second: &'a [u16],
}

// A plan by its numbers and lists; the number of nodes stands with the columns.
#[derive(Clone, Copy)]
pub struct GivenPlan<'a> {
    pub unknowns: usize,
    pub parts: usize,
    pub slots: usize,
    pub order: &'a [u16],
    pub sizes: &'a [u16],
    pub parents: &'a [u16],
    pub columns: NodeLists<'a>,
}

// The values of a plan's matrix: those on the diagonal by position, and those of its slots.
#[derive(Clone, Copy)]
pub struct GivenValues<'a> {
    pub diagonal: &'a [f64],
    pub values: &'a [f64],
}

impl<'a> GivenValues<'a> {
    // 30: the diagonal is not n long, or the values are not as many as the slots.
    pub(crate) fn check(self, n: usize, slots: usize) -> Result<(), Refused> {
        refused_if(self.diagonal.len() != n || self.values.len() != slots, 30)
    }
}

// The lengths of the lent results of planning and reading.
#[derive(Clone, Copy)]
pub struct Room {
    pub order: usize,
    pub positions: usize,
    pub sizes: usize,
    pub parents: usize,
    pub column_starts: usize,
    pub rows: usize,
}

impl Room {
    // 8: a result other than the rows is too short for n nodes.
    pub(crate) fn check_lists(self, n: usize) -> Result<(), Refused> {
        let least = self
            .order
            .min(self.positions)
            .min(self.sizes)
            .min(self.parents);
        refused_if(least < n || self.column_starts <= n, 8)
    }

    // 9: the rows are too short for so many slots.
    pub(crate) fn check_rows(self, slots: usize) -> Result<(), Refused> {
        refused_if(self.rows < slots, 9)
    }
}
