// What a text says: the numbers of its size line, and its pairs.
use meshes::{draw, more};
use plan::Plan;

// The most pairs of a draft.
const PAIRS: usize = 300;

#[derive(Clone, Copy)]
pub(crate) struct Pair {
    pub(crate) row: usize,
    pub(crate) column: usize,
}

// The list has `count` pairs.
// kept: an array with its length beside, for memory is fixed.
#[derive(Clone, Copy)]
pub(crate) struct Draft {
    pub(crate) height: usize,
    pub(crate) width: usize,
    pub(crate) stated: usize,
    count: usize,
    pairs: [Pair; PAIRS],
}

impl Draft {
    // The draft of n nodes without pairs.
    pub(crate) fn new(n: usize) -> Draft {
        Draft {
            height: n,
            width: n,
            stated: 0,
            count: 0,
            pairs: [Pair { row: 0, column: 0 }; PAIRS],
        }
    }

    pub(crate) fn pairs(&self) -> &[Pair] {
        self.pairs.get(..self.count).unwrap_or(&[])
    }

    pub(crate) fn count(&self) -> usize {
        self.pairs().len()
    }

    // Pair k, or zeros.
    pub(crate) fn pair(&self, k: usize) -> Pair {
        match self.pairs.get(k) {
            Some(pair) => *pair,
            None => Pair { row: 0, column: 0 },
        }
    }

    // Another pair k, where there is room.
    pub(crate) fn put(&mut self, k: usize, pair: Pair) {
        if let Some(place) = self.pairs.get_mut(k) {
            *place = pair;
        }
    }

    // One more pair, and one more stated, that number cut to 32 bits first, where there is room.
    pub(crate) fn push(&mut self, pair: Pair) {
        if self.count < PAIRS {
            self.pairs[self.count] = pair;
            self.count += 1;
            self.stated = more(self.stated);
        }
    }

    // Without the last pair.
    pub(crate) fn pop(&mut self) {
        self.count = self.count.saturating_sub(1);
    }

    // How many of the pairs join a number to another one.
    fn degree(&self, number: usize) -> usize {
        self.pairs()
            .iter()
            .filter(|pair| (pair.row == number) != (pair.column == number))
            .count()
    }

    // One more pair, in a place that the seed draws, where there is room: the pair there becomes the last.
    pub(crate) fn push_mixed(&mut self, seed: u64, pair: Pair) {
        if self.count < PAIRS {
            let k = draw(seed, self.count, 30, self.count + 1);
            let moved = self.pair(k);
            self.push(moved);
            self.put(k, pair);
        }
    }

    // The same, unless one of the pair's nodes has as many neighbours as are allowed.
    pub(crate) fn push_allowed(&mut self, seed: u64, pair: Pair) {
        let most = Plan::NEIGHBOURS;
        if self.degree(pair.row) < most && self.degree(pair.column) < most {
            self.push_mixed(seed, pair);
        }
    }
}
