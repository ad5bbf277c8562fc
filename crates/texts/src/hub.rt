// Drafts with a hub: a node with about as many neighbours as are allowed. The other nodes have at most three.
use crate::draft::{Draft, Pair};
use meshes::{draw, less, more};
use plan::Plan;

// How many neighbours the hub of a seed's draft has: one less than allowed, up to two more.
pub(crate) fn hub_degree(seed: u64) -> usize {
    Plan::NEIGHBOURS - 1 + draw(seed, 0, 35, 4) % 4
}

// Puts a pair into a draft, the greater number first.
fn join(d: &mut Draft, seed: u64, a: usize, b: usize) {
    let pair = Pair {
        row: a.max(b),
        column: a.min(b),
    };
    d.push_mixed(seed, pair);
}

// The number that stands i behind `number` where n numbers from 1 on stand in a ring.
fn behind(n: usize, number: usize, i: usize) -> usize {
    if n == 0 {
        return 0;
    }
    more((less(number) % 65536 + i % 65536) % n)
}

// A draft of 29 to 60 nodes. The hub is next to those behind it in the ring, each of the others to the one behind it; some diagonal pairs are given
// too, that of the hub for one seed in two. The pairs are in an order that the seed draws.
pub(crate) fn with_hub(seed: u64) -> Draft {
    let n = 29 + draw(seed, 1, 35, 32) % 32;
    let hub = more(draw(seed, 2, 35, n));
    let degree = hub_degree(seed);
    let mut d = Draft::new(n);
    for i in 0..n {
        let v = behind(n, hub, i);
        if draw(seed, i, 36, 2) == 0 {
            join(&mut d, seed, v, v);
        }
        if 0 < i && i <= degree {
            join(&mut d, seed, hub, v);
        }
        if 0 < i && i + 1 < n {
            join(&mut d, seed, v, behind(n, v, 1));
        }
    }
    d
}
