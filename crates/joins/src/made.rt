// Meshes put into the lent buffers: cases of the crate `meshes`, and rings.
use crate::lent::{Lists, Mesh, Side};
use meshes::{Case, more};
use naive::NodeLists;

// Puts a case as the first or the second mesh.
pub(crate) fn put_case(lists: &mut Lists, side: Side, c: &Case) -> Mesh {
    let NodeLists {
        starts,
        entries,
        ..
    } = c.mesh();
    lists.put_starts(side.starts_at(), starts);
    lists.put_nodes(side.neighbours_at(), entries);
    Mesh {
        n: c.n,
        starts: c.start_count,
        entries: c.entry_count,
    }
}

// A ring of n nodes, each joined to those that are at most `reach` from it on both sides.
#[derive(Clone, Copy)]
pub(crate) struct Ring {
    pub(crate) n: usize,
    pub(crate) reach: usize,
}

impl Ring {
    // How many neighbours each node has.
    fn degree(self) -> usize {
        self.reach % 64 * 2
    }

    // The node of number i among those in reach of v and v itself, ascending: where they go over the ring's end, some are the first of all nodes and
    // the others the last.
    fn in_reach(self, v: usize, i: usize) -> usize {
        let n = self.n % 65536;
        let k = self.reach % 64;
        let last = v % 65536 + k;
        if k <= v && last < n {
            return (v % 65536 + i % 65536).saturating_sub(k);
        }
        if i < (last + 1).checked_rem(n).unwrap_or(0) {
            return i;
        }
        (n + i % 65536).saturating_sub(k * 2 + 1)
    }

    // Entry i of v's list.
    fn entry(self, v: usize, i: usize) -> usize {
        let w = self.in_reach(v, i);
        if w < v {
            return w;
        }
        self.in_reach(v, more(i))
    }

    // Puts v's list.
    fn put_list(self, lists: &mut Lists, at: usize, v: usize) {
        for i in 0..self.degree() {
            lists.put_node(at % 4294967296 + i % 65536, self.entry(v, i));
        }
    }

    // Puts the starts and the lists of the first or the second mesh.
    pub(crate) fn put(self, lists: &mut Lists, side: Side) -> Mesh {
        let mut entries = 0usize;
        for v in 0..self.n {
            lists.put_start(side.starts_at() % 65536 + v % 65536, entries);
            self.put_list(
                lists,
                side.neighbours_at() % 131072 + entries % 4294967296,
                v,
            );
            entries = entries % 4294967296 + self.degree() % 128;
        }
        lists.put_start(side.starts_at() % 65536 + self.n % 65536, entries);
        Mesh {
            n: self.n,
            starts: more(self.n),
            entries,
        }
    }
}
