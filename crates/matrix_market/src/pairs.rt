// The lines of the pairs, one after the other.
ghost use Rattle.std.specs.Prelude.{◌≡◌, cond, ◌||◌, ◌+◌, ◌≤◌, ◌<◌, length, set};
ghost use Rattle.plan.specs.MatrixMarket.{max_number, bad_pair};
ghost use Rattle.plan.specs.AcceptedTexts.{off_diagonal};
ghost use Rattle.theory.specs.Keys.{key_of};
ghost use Rattle.lexer.specs.Suffixes.{lines_at};
ghost use Rattle.matrix_market.specs.Lines.{PairAt, Surveyed};

use crate::keys::key;
use lexer::{line_over, number};

// A pair by its two numbers, each of at most 32 bits.
#[derive(Clone, Copy)]
pub(crate) struct Pair {
    pub row: u64,
    pub column: u64,
}

// A line of the pairs: its pair, none where it has no words, and the place of the next line.
#[derive(Clone, Copy)]
pub(crate) struct PairLine {
    pub pair: Option<Pair>,
    pub next: usize,
}

// The line that begins at a place, where it has no words, or two numbers and nothing else. O(its length).
pub(crate) fn read_pair(text: &[u8], at: usize) -> Option<PairLine>
    requires { at ≤ length text.now }
    ensures { PairAt text.now at result }
{
    let Some(row) = number(text, at) else {
        let next = line_over(text, at)?;
        return Some(PairLine { pair: None, next });
    };
    let column = number(text, row.next)?;
    let next = line_over(text, column.next)?;
    let pair = Pair {
        row: row.value,
        column: column.value,
    };
    Some(PairLine {
        pair: Some(pair),
        next,
    })
}

// What a run over all pairs found: how many there are, whether one is bad (check 24), and how many are not diagonal.
#[derive(Clone, Copy)]
pub(crate) struct Tally {
    pub pairs: usize,
    pub bad: bool,
    pub links: usize,
}

impl Pair {
    // The pair as one number: as `keys` says. O(1).
    pub(crate) fn key(self) -> u64
        requires { (self.row ≤ max_number) × (self.column ≤ max_number) }
        ensures { result ≡ key_of (self.row, self.column) }
    {
        key(self.row, self.column)
    }

    // Whether the pair, of a matrix of n rows and columns, has an index outside it, or a row number less than its column's. O(1).
    fn is_bad(self, n: u64) -> bool
        ensures { result ≡ bad_pair n (self.row, self.column) }
    {
        self.column == 0 || self.row > n || self.row < self.column
    }

    // Whether it is no diagonal pair. O(1).
    fn is_off_diagonal(self) -> bool
        ensures { result ≡ off_diagonal (self.row, self.column) }
    {
        self.row != self.column
    }
}

impl Tally {
    // One pair more. O(1).
    fn with(self, n: u64, pair: Pair) -> Tally
        requires { (self.pairs < 18446744073709551615) × (self.links ≤ self.pairs) }
        ensures { result ≡ record { pairs = self.pairs + 1; bad = (self.bad || bad_pair n (pair.row, pair.column)); links = self.links + cond (off_diagonal (pair.row, pair.column)) 1 0 } }
    {
        Tally {
            pairs: self.pairs + 1,
            bad: self.bad | pair.is_bad(n),
            links: self.links + usize::from(pair.is_off_diagonal()),
        }
    }
}

// A key at a place, if there is such a place. O(1).
fn store(keys: &mut [u64], k: usize, x: u64)
    ensures { keys.new ≡ set keys.old k x }
{
    if k < keys.len() {
        keys[k] = x;
    }
}

// One run over the lines of the pairs, none where one of them holds no pair: what checks 23 and 24 ask of them, and their keys, as many as the buffer
// holds. O(bytes).
pub(crate) fn survey(text: &[u8], at: usize, n: u64, keys: &mut [u64]) -> Option<Tally>
    requires { at ≤ length text.now }
    ensures { Surveyed (lines_at text.now at) n result keys.old keys.new }
{
    let mut i = at;
    let mut s = Tally {
        pairs: 0,
        bad: false,
        links: 0,
    };
    while i < text.len() {
        let line = read_pair(text, i)?;
        i = line.next;
        let Some(pair) = line.pair else {
            continue;
        };
        store(keys, s.pairs, pair.key());
        s = s.with(n, pair);
    }
    Some(s)
}
