// From mesh to parts, each sentence by itself.
use crate::lists::item;
use crate::sets::{around, has, only, row, smallest, without};

// What stands in the place of the parent of a part that has none.
pub(crate) const NO_PARENT: u16 = 65535;

// The levels from a root; `last` is the number of the last one.
#[derive(Clone, Copy)]
struct Levels {
    sets: [u64; 64],
    last: usize,
}

impl Levels {
    fn level(&self, i: usize) -> u64 {
        item(&self.sets, i)
    }

    // "The node count of its widest level".
    fn widest(&self) -> u32 {
        self.sets
            .iter()
            .fold(0u32, |most, s| most.max(s.count_ones()))
    }
}

fn levels_from(m: &[u64; 64], region: u64, root: usize) -> Levels {
    let mut l = Levels {
        sets: [0; 64],
        last: 0,
    };
    l.sets[0] = only(root);
    let mut seen = only(root);
    for i in 0..63usize {
        let next = without(around(m, l.sets[i]) & region, seen);
        if next == 0 {
            return l;
        }
        l.sets[i + 1] = next;
        l.last = i + 1;
        seen |= next;
    }
    l
}

// The nodes of s that a path inside s joins to v.
fn component(m: &[u64; 64], s: u64, v: usize) -> u64 {
    let mut c = only(v);
    for _ in 0..64usize {
        let more = c | (around(m, c) & s);
        if more == c {
            return c;
        }
        c = more;
    }
    c
}

// How many neighbours v has in the region.
fn degree(m: &[u64; 64], region: u64, v: usize) -> u32 {
    (row(m, v) & region).count_ones()
}

// The node of s of least degree, the smallest on a tie.
fn least_degree(m: &[u64; 64], region: u64, s: u64) -> usize {
    (0..64usize)
        .filter(|v| has(s, *v))
        .min_by_key(|v| degree(m, region, *v))
        .unwrap_or(64)
}

// "A candidate replaces the root if its ℓ is greater, or if ℓ is equal and its widest level is smaller". Each is given by its levels.
fn replaces(candidate: &Levels, root: &Levels) -> bool {
    if candidate.last == root.last {
        return candidate.widest() < root.widest();
    }
    root.last < candidate.last
}

// The first candidate in the last of the root's levels that replaces the root.
fn replacement(m: &[u64; 64], region: u64, l: &Levels) -> Option<usize> {
    let mut rest = l.level(l.last);
    for _ in 0..64usize {
        if rest == 0 {
            return None;
        }
        let c = component(m, rest, smallest(rest));
        let v = least_degree(m, region, c);
        if replaces(&levels_from(m, region, v), l) {
            return Some(v);
        }
        rest = without(rest, c);
    }
    None
}

// The pseudo-peripheral root of a region (document 01: starting root). What `replaces` compares gets better with every replacement, so no node
// is the root twice, and as many turns as there are nodes are enough.
fn root(m: &[u64; 64], region: u64) -> usize {
    let mut r = smallest(region);
    for _ in 0..64usize {
        match replacement(m, region, &levels_from(m, region, r)) {
            Some(v) => r = v,
            None => return r,
        }
    }
    r
}

// The part of a region: all of it, or the nodes of level j that have a neighbour in level j + 1.
fn part_of(m: &[u64; 64], region: u64) -> u64 {
    let l = levels_from(m, region, root(m, region));
    let last = l.last;
    if last < 2 {
        return region;
    }
    let j = (last % 64 + 1) / 2;
    l.level(j) & around(m, l.level(j + 1))
}

// The parts and positions given so far.
// kept: arrays with their lengths beside, for memory is fixed.
#[derive(Drop)]
pub(crate) struct Parts {
    placed: usize,
    pub(crate) parts: usize,
    pub(crate) order: [u16; 64],
    pub(crate) positions: [u16; 64],
    pub(crate) sizes: [u16; 64],
    pub(crate) parents: [u16; 64],
}

impl Parts {
    // Node v at the next position.
    fn place(&mut self, v: usize) {
        let at = self.placed;
        if at < 64 && v < 64 {
            self.order[at] = v as u16;
            self.positions[v] = at as u16;
            self.placed = at + 1;
        }
    }

    // The nodes of s at the next positions, ascending.
    fn place_all(&mut self, s: u64) {
        for v in 0..64usize {
            if has(s, v) {
                self.place(v);
            }
        }
    }

    // The next part is the parent (document 01: father) of those from `first` on that have none yet.
    fn adopt(&mut self, first: usize) {
        let next = (self.parts % 64) as u16;
        for parent in self.parents.iter_mut().take(self.parts).skip(first) {
            if *parent == NO_PARENT {
                *parent = next;
            }
        }
    }

    // One part more, of the nodes of s.
    fn add_part(&mut self, s: u64) {
        self.place_all(s);
        let k = self.parts;
        if k < 64 {
            self.sizes[k] = (s.count_ones() % 65) as u16;
            self.parents[k] = NO_PARENT;
            self.parts = k + 1;
        }
    }
}

// Numbers the regions that s falls into, by smallest node: of each the regions left by its cut, then its part. `turns` is at least the number of
// nodes of s.
fn number(m: &[u64; 64], s: u64, turns: usize, p: &mut Parts) {
    if s == 0 || turns == 0 {
        return;
    }
    let region = component(m, s, smallest(s));
    let part = part_of(m, region);
    let first = p.parts;
    number(m, without(region, part), turns - 1, p);
    p.adopt(first);
    p.add_part(part);
    number(m, without(s, region), turns - 1, p);
}

// The nodes 0 to n − 1.
fn nodes(n: usize) -> u64 {
    (0..64usize)
        .filter(|v| *v < n)
        .fold(0u64, |s, v| s | only(v))
}

pub(crate) fn dissect(m: &[u64; 64], n: usize) -> Parts {
    let mut p = Parts {
        placed: 0,
        parts: 0,
        order: [0; 64],
        positions: [0; 64],
        sizes: [0; 64],
        parents: [0; 64],
    };
    number(m, nodes(n), 64, &mut p);
    p
}
