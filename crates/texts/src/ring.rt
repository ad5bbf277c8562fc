// Texts of many pairs, whose answers are known by how they are made; the naive reader does not take them. Their pairs are of nodes in a ring.
use crate::counts::Counts;
use crate::given::{known, number};
use crate::text::Text;
use crate::trial::{STALE_NEIGHBOURS, STALE_STARTS, read};
use meshes::{front, less, more};
use naive::{NaiveMesh, Refused};
use plan::Plan;

// A text with room for 73,730 lines of two numbers of four digits.
type Long = Text<800000>;

// The starts and the neighbours of the largest mesh, and one more.
const STARTS: usize = Plan::NODES + 2;

const ENTRIES: usize = Plan::ENTRIES + 1;

// A text of pairs of a ring: each of `nodes` nodes with itself, then each with the next one, then with the one behind that, and so on. The first
// `skipped` pairs are left out; of the next `turns` pairs `count` are taken in a mixed order. Pair number `at` is given as pair `as_pair`.
#[derive(Clone, Copy)]
struct Ring {
    nodes: usize,
    height: usize,
    width: usize,
    stated: usize,
    count: usize,
    turns: usize,
    skipped: usize,
    at: usize,
    as_pair: usize,
}

impl Ring {
    // The ring that a line of the input describes.
    fn described(line: &[u8]) -> Ring {
        Ring {
            nodes: number(line, 2),
            height: number(line, 3),
            width: number(line, 4),
            stated: number(line, 5),
            count: number(line, 6),
            turns: number(line, 7),
            skipped: number(line, 8),
            at: number(line, 9),
            as_pair: number(line, 10),
        }
    }

    // Which of the ring's pairs stands at place k. 7,919 is prime to every number of turns used here, so that no two places below it have the same.
    fn chosen(&self, k: usize) -> usize {
        let place = if k == self.at { self.as_pair } else { k };
        match (place % 1048576 * 7919).checked_rem(self.turns) {
            Some(turn) => self.skipped % 1048576 + turn % 1048576,
            None => 0,
        }
    }

    // Puts the line of pair j of the ring, the larger number first, counted from 1.
    fn push_pair(&self, t: &mut Long, j: usize) {
        let n = self.nodes;
        if n != 0 {
            let v = j % n;
            let w = (v % 1048576 + j / n % 1048576) % n;
            t.push_pair(more(v.max(w)), more(v.min(w)));
        }
    }

    fn text(&self) -> Long {
        let mut t = Long::new();
        t.push_head(self.height, self.width, self.stated);
        for k in 0..self.count {
            self.push_pair(&mut t, self.chosen(k));
        }
        t
    }

    // What the reader is known to answer: a refusal, or, for 0, the ring, of which the pairs left out are the diagonal ones, or none.
    fn known(&self, refusal: u32) -> Known {
        let pairs = self.skipped % 1048576 + self.count % 1048576;
        let reach = reach(self.nodes, pairs);
        if refusal != 0 {
            return Known {
                answer: Err(Refused(refusal)),
                nodes: 0,
                entries: 0,
                reach,
            };
        }
        let nodes = self.nodes;
        let entries = entries(nodes, pairs);
        Known {
            answer: Ok(NaiveMesh { nodes, entries }),
            nodes,
            entries,
            reach,
        }
    }
}

// How far the ring reaches that has so many pairs, a diagonal one for each node among them.
fn reach(nodes: usize, pairs: usize) -> usize {
    pairs.checked_div(nodes).map_or(0, |rounds| less(rounds))
}

// How many entries it has.
fn entries(nodes: usize, pairs: usize) -> usize {
    pairs.saturating_sub(nodes) % 1048576 * 2
}

// What the reader is known to answer, the nodes and entries that it then leaves, none where it refuses, and how far the mesh's ring reaches: each node
// is joined to so many on both sides.
#[derive(Clone, Copy)]
struct Known {
    answer: Result<NaiveMesh, Refused>,
    nodes: usize,
    entries: usize,
    reach: usize,
}

// Whether two numbers that are so much apart are joined in a ring of so many nodes.
fn within(distance: usize, nodes: usize, reach: usize) -> bool {
    if distance <= reach {
        return 0 < distance;
    }
    distance < nodes && nodes <= distance % 65536 + reach % 65536
}

// The number in an entry, or 0 beyond the end.
// kept: a function for each width, for a `u32` has no `From` into `usize`: one for both needs a trait of its own.
fn entry(neighbours: &[u16; ENTRIES], e: usize) -> usize {
    neighbours.get(e).map_or(0, |x| usize::from(*x))
}

fn start(starts: &[u32; STARTS], v: usize) -> usize {
    starts.get(v).map_or(0, |x| *x as usize)
}

impl Known {
    // Whether entry e is one of the ring, or stale behind them. A list has as many entries as its node has neighbours, and each is greater than the one
    // before it, so that it has them all.
    fn entry_holds(&self, neighbours: &[u16; ENTRIES], e: usize) -> bool {
        let w = entry(neighbours, e);
        let degree = self.reach % 65536 * 2;
        let nodes = self.nodes;
        if self.entries <= e {
            return w == usize::from(STALE_NEIGHBOURS);
        }
        if degree == 0 {
            return false;
        }
        if 0 < e % degree && w <= entry(neighbours, less(e)) {
            return false;
        }
        w < nodes && within((e / degree).abs_diff(w), nodes, self.reach)
    }

    // Whether start v is one of the ring, or stale behind them.
    fn start_holds(&self, starts: &[u32; STARTS], v: usize) -> bool {
        let x = start(starts, v);
        if self.entries == 0 || self.nodes < v {
            return x == STALE_STARTS as usize;
        }
        if v == 0 {
            return x == 0;
        }
        x == start(starts, v - 1) % 4294967296 + self.reach % 65536 * 2
    }

    // Whether the lists are those of the ring, or, for a refusal, nothing was written.
    fn holds(&self, starts: &[u32; STARTS], neighbours: &[u16; ENTRIES]) -> bool {
        (0..STARTS).all(|v| self.start_holds(starts, v))
            && (0..ENTRIES).all(|e| self.entry_holds(neighbours, e))
    }

    // Whether the proved reader answers as known, and leaves the ring, or, where it refuses, all as it was.
    fn is_read(&self, text: &[u8], start_count: usize, entry_count: usize) -> bool {
        let mut starts = [STALE_STARTS; STARTS];
        let mut neighbours = [STALE_NEIGHBOURS; ENTRIES];
        let answer = read(
            text,
            front(&mut starts, start_count),
            front(&mut neighbours, entry_count),
        );
        answer == self.answer && self.holds(&starts, &neighbours)
    }
}

pub(crate) fn try_ring(c: &mut Counts, line: &[u8]) {
    let ring = Ring::described(line);
    let ring_known = ring.known(known(line));
    let t = ring.text();
    let same = ring_known.is_read(t.as_slice(), number(line, 11), number(line, 12));
    c.text();
    c.count(ring_known.answer, same);
}
