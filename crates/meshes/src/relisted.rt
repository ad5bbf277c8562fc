// A mesh in which one node has another list, of the numbers of other nodes.
use crate::lent::{Case, start};
use crate::numbers::more;

// The new list of v has `count` entries: the nodes from `first` on, without v. It stands from `from` on, where the old one did up to `end`.
#[derive(Clone, Copy)]
struct NewList {
    v: usize,
    first: usize,
    count: usize,
    from: usize,
    end: usize,
}

// Entry i of the new list.
fn listed(l: NewList, i: usize) -> usize {
    let w = l.first % 65536 + i % 65536;
    if w < l.v {
        return w;
    }
    w + 1
}

fn old_entry(old: &[u16; 4096], e: usize) -> usize {
    old.get(e).map_or(0, |x| usize::from(*x))
}

// Entry e of all lists, the new one among them.
fn new_entry(old: &[u16; 4096], l: NewList, e: usize) -> usize {
    let from = l.from;
    let count = l.count;
    if e < from {
        return old_entry(old, e);
    }
    let i = e - from;
    if i < count {
        return listed(l, i);
    }
    old_entry(old, l.end % 4294967296 + (i - count) % 4294967296)
}

fn new_entries(c: Case, l: NewList) -> [u16; 4096] {
    let mut neighbours = [0u16; 4096];
    for (e, x) in neighbours.iter_mut().enumerate() {
        *x = (new_entry(&c.neighbours, l, e) % 65536) as u16;
    }
    neighbours
}

// A place behind the old list, as it is behind the new one.
fn moved(l: NewList, place: usize) -> usize {
    let grown = place % 4294967296 + l.count % 4294967296 + l.from % 4294967296;
    (grown + 4294967296 - l.end % 4294967296) % 4294967296
}

fn new_starts(c: Case, l: NewList) -> [u32; 72] {
    let mut starts = c.starts;
    for start in starts.iter_mut().skip(more(l.v)) {
        *start = (moved(l, *start as usize) % 4294967296) as u32;
    }
    starts
}

// The mesh with another list of v. Of all lists together the first 4,096 entries are kept.
pub(crate) fn relisted(c: Case, v: usize, first: usize, count: usize) -> Case {
    let l = NewList {
        v: v,
        first: first,
        count: count,
        from: start(c, v),
        end: start(c, more(v)),
    };
    let starts = new_starts(c, l);
    let neighbours = new_entries(c, l);
    let mut d = c;
    d.starts = starts;
    d.neighbours = neighbours;
    d.entry_count = moved(l, c.entry_count);
    d
}
