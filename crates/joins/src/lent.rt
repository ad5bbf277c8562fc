// What joining is lent. The lists stand in two buffers: both meshes' starts in one, both meshes' neighbours and the pairs' two lists in the other.

use naive::{NodeLists, NodePairs};

// How long the buffers are.
const STARTS_LENT: usize = 8400;

const NODES_LENT: usize = 264000;

// How long the buffers are whose fronts are lent as results.
pub(crate) const STARTS_LEFT: usize = 4100;

pub(crate) const ENTRIES_LEFT: usize = 65540;

// Which of the two meshes, whose lists and whose list of pairs each begin at a place of their own.
#[derive(Clone, Copy)]
pub(crate) enum Side {
    First,
    Second,
}

impl Side {
    pub(crate) fn starts_at(self) -> usize {
        match self {
            Side::First => 0,
            Side::Second => 4200,
        }
    }

    pub(crate) fn neighbours_at(self) -> usize {
        match self {
            Side::First => 0,
            Side::Second => 66000,
        }
    }

    pub(crate) fn pairs_at(self) -> usize {
        match self {
            Side::First => 132000,
            Side::Second => 198000,
        }
    }
}

// kept: arrays of fixed lengths, for memory is fixed.
#[derive(Drop)]
pub(crate) struct Lists {
    starts: [u32; STARTS_LENT],
    nodes: [u16; NODES_LENT],
}

impl Lists {
    pub(crate) fn new() -> Lists {
        Lists {
            starts: [0; STARTS_LENT],
            nodes: [0; NODES_LENT],
        }
    }

    // Puts a start or a node, cut to its width, where there is such a place.
    // kept: functions for each width, as below, for a `u32` has no `From` into `usize`: one for both needs a trait of its own.
    pub(crate) fn put_start(&mut self, at: usize, x: usize) {
        if let Some(start) = self.starts.get_mut(at) {
            *start = (x % 4294967296) as u32;
        }
    }

    pub(crate) fn put_node(&mut self, at: usize, x: usize) {
        if let Some(node) = self.nodes.get_mut(at) {
            *node = (x % 65536) as u16;
        }
    }

    pub(crate) fn put_starts(&mut self, at: usize, piece: &[u32]) {
        put_all(&mut self.starts, at, piece);
    }

    pub(crate) fn put_nodes(&mut self, at: usize, piece: &[u16]) {
        put_all(&mut self.nodes, at, piece);
    }

    // The start or the node at a place, or 0.
    pub(crate) fn start(&self, at: usize) -> usize {
        self.starts.get(at).map_or(0, |x| *x as usize)
    }

    pub(crate) fn node(&self, at: usize) -> usize {
        self.nodes.get(at).map_or(0, |x| usize::from(*x))
    }

    // The mesh that is lent.
    pub(crate) fn mesh<'a>(&'a self, side: Side, mesh: Mesh) -> NodeLists<'a> {
        NodeLists {
            nodes: mesh.n,
            starts: part(&self.starts, side.starts_at(), mesh.starts),
            entries: part(&self.nodes, side.neighbours_at(), mesh.entries),
        }
    }

    // The pairs that are lent.
    pub(crate) fn pairs<'a>(&'a self, l: &Lent) -> NodePairs<'a> {
        NodePairs {
            first: part(&self.nodes, Side::First.pairs_at(), l.first),
            second: part(&self.nodes, Side::Second.pairs_at(), l.second),
        }
    }
}

// Puts a list at a place of a buffer, as far as it fits.
// kept: entry by entry, for `copy_from_slice` asks for equal lengths: both lists would have to be cut first.
fn put_all<T: Copy>(buffer: &mut [T], at: usize, list: &[T]) {
    if let Some(entries) = buffer.get_mut(at..) {
        for (entry, x) in entries.iter_mut().zip(list.iter()) {
            *entry = *x;
        }
    }
}

// The list that begins at a place of a buffer.
pub(crate) fn part<T>(list: &[T], from: usize, count: usize) -> &[T] {
    let rest = list.get(from..).unwrap_or(list);
    rest.get(..count).unwrap_or(rest)
}

// A mesh as it is lent: its nodes, and how many starts and neighbours there are.
#[derive(Clone, Copy)]
pub(crate) struct Mesh {
    pub(crate) n: usize,
    pub(crate) starts: usize,
    pub(crate) entries: usize,
}

// What is known of an answer: nothing, that it is a mesh, that it is the first mesh itself, or its refusal.
#[derive(Clone, Copy)]
pub(crate) enum Known {
    Any,
    Mesh,
    Itself,
    Refused(u32),
}

impl Known {
    // What is known where nothing is lent: a refusal that comes before 8, or else 8.
    pub(crate) fn without_room(self) -> Known {
        match self {
            Known::Mesh | Known::Itself => Known::Refused(8),
            _ => self,
        }
    }
}

// The two meshes, the lengths of the pairs' two lists and of the lent results, and what is known of the answer. So much
// of the buffers whose fronts are lent as results is looked at.
#[derive(Clone, Copy)]
pub(crate) struct Lent {
    pub(crate) mesh1: Mesh,
    pub(crate) mesh2: Mesh,
    pub(crate) first: usize,
    pub(crate) second: usize,
    pub(crate) start_room: usize,
    pub(crate) entry_room: usize,
    pub(crate) known: Known,
    pub(crate) start_span: usize,
    pub(crate) entry_span: usize,
}

impl Lent {
    // Two meshes and so many pairs, of which the answer is known, and results that are long enough where a mesh has at most 64 nodes.
    pub(crate) fn new(mesh1: Mesh, mesh2: Mesh, pairs: usize, known: Known) -> Lent {
        Lent {
            mesh1,
            mesh2,
            first: pairs,
            second: pairs,
            start_room: 140,
            entry_room: 3500,
            known,
            start_span: 140,
            entry_span: 3500,
        }
    }

    // The same with results that are long enough for every joined mesh.
    pub(crate) fn enlarged(self) -> Lent {
        Lent {
            start_span: STARTS_LEFT,
            entry_span: ENTRIES_LEFT,
            ..self.with_room(STARTS_LEFT, ENTRIES_LEFT, self.known)
        }
    }

    // The same with results of other lengths, for which the answer is known.
    pub(crate) fn with_room(self, starts: usize, entries: usize, known: Known) -> Lent {
        Lent {
            start_room: starts,
            entry_room: entries,
            known,
            ..self
        }
    }
}
