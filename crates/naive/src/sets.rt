// Sets of nodes below 64, a bit for each, and a dense matrix of neighbours, a set for each node.
use crate::lists::item;

// The set that holds v alone.
pub(crate) fn only(v: usize) -> u64 {
    if v < 64 {
        return 1u64 << v;
    }
    0
}

pub(crate) fn has(s: u64, v: usize) -> bool {
    s & only(v) != 0
}

pub(crate) fn without(s: u64, t: u64) -> u64 {
    s & !t
}

// The smallest node of s, or 64 where s is empty.
pub(crate) fn smallest(s: u64) -> usize {
    s.trailing_zeros() as usize
}

// The neighbours of v.
pub(crate) fn row(m: &[u64; 64], v: usize) -> u64 {
    item(m, v)
}

// Every neighbour of a node of s.
pub(crate) fn around(m: &[u64; 64], s: u64) -> u64 {
    let mut r = 0u64;
    for (v, row) in m.iter().enumerate() {
        if has(s, v) {
            r |= *row;
        }
    }
    r
}
