// Check 25, "a pair given again, diagonal ones too": the pairs block by block. A block's keys are sorted and compared with one another, then each key
// behind the block is looked up in it. So a text of any length is searched in the memory of one block, by (pairs / block) runs over what is left of it.
ghost use Rattle.std.specs.Prelude.{◌≡◌, true, false, ◌≤◌, ◌<◌, ◌*◌, ◌+◌, ltb, length, take};
ghost use Rattle.plan.specs.Lists.{exists, every, is_in, ascending, written, twice};
ghost use Rattle.plan.specs.MatrixMarket.{max_number, holds_numbers, pair_of, bad_pair, given_again};
ghost use Rattle.theory.specs.Keys.{key_of};
ghost use Rattle.lexer.specs.Suffixes.{lines_at};
ghost use Rattle.matrix_market.specs.Lines.{pairs_in, keys_in};
ghost use Rattle.matrix_market.specs.Blocks.{Blocked};
ghost use Rattle.sorting.specs.Sorted.{sorted};

use crate::pairs::read_pair;
use sorting::{contains, has_repeat, sort};

// A block: how many pairs it has, and where the line behind it begins.
#[derive(Clone, Copy)]
struct Block {
    count: usize,
    next: usize,
}

// The keys of the next pairs to the front of the buffer, as many as it holds. O(bytes passed).
fn gather(text: &[u8], at: usize, keys: &mut [u64]) -> Block
    requires { (at ≤ length text.now) × (every (holds_numbers 2) (lines_at text.now at) ≡ true) }
    ensures { Blocked text.now at result keys.old keys.new }
{
    let mut i = at;
    // kept: k counts pairs, not lines; a `for` over the keys' places would need a loop inside that passes the lines without a pair
    let mut k: usize = 0;
    while i < text.len() && k < keys.len() {
        let Some(line) = read_pair(text, i) else {
            unreachable!()
        };
        i = line.next;
        let Some(pair) = line.pair else {
            continue;
        };
        keys[k] = pair.key();
        k += 1;
    }
    Block { count: k, next: i }
}

// Whether a pair from a place on has its key among these. O(bytes + pairs · log keys).
fn meets(text: &[u8], at: usize, keys: &[u64]) -> bool
    requires { (at ≤ length text.now) × (every (holds_numbers 2) (lines_at text.now at) ≡ true) × (ascending keys.now ≡ true) }
    ensures { result ≡ exists (λ l. is_in (key_of (pair_of l)) keys.now) (lines_at text.now at) }
{
    let mut i = at;
    while i < text.len() {
        let Some(line) = read_pair(text, i) else {
            unreachable!()
        };
        i = line.next;
        let Some(pair) = line.pair else {
            continue;
        };
        if contains(keys, pair.key()) {
            return true;
        }
    }
    false
}

// The first keys sorted, and whether one of them stands there twice. As `sort`: O(count · log count), O(count) for keys in order.
fn sort_block(count: usize, keys: &mut [u64]) -> bool
    requires { count ≤ length keys.old }
    ensures { (result ≡ twice (take count keys.old)) × (keys.new ≡ written (sorted (take count keys.old)) keys.old) }
{
    sort(&mut keys[..count]);
    has_repeat(&keys[..count])
}

// Whether a pair is given again, from a place on. O(pairs / block · (bytes + pairs · log block)).
fn repeated_in_blocks(text: &[u8], at: usize, keys: &mut [u64]) -> bool
    requires { (at ≤ length text.now) × (every (holds_numbers 2) (lines_at text.now at) ≡ true) × (0 < length keys.old) }
    ensures { (result ≡ given_again (pairs_in (lines_at text.now at))) × (length keys.new ≡ length keys.old) }
{
    let mut from = at;
    // kept: a turn takes as many lines as fill a block
    while from < text.len() {
        let b = gather(text, from, keys);
        let count = b.count;
        if sort_block(count, keys) {
            return true;
        }
        if meets(text, b.next, &keys[..count]) {
            return true;
        }
        from = b.next;
    }
    false
}

// Whether there are more pairs than a matrix of n rows and columns has places at and below its diagonal: then one is given again. O(1).
fn crowded(n: u64, pairs: u64) -> bool
    requires { (n ≤ max_number) × (pairs ≤ max_number) }
    ensures { result ≡ ltb (n * (n + 1)) (2 * pairs) }
{
    n * (n + 1) < 2 * pairs
}

// Check 25, where 23 and 24 found no fault and the keys of the pairs, as many as the buffer holds, stand in it. Where it holds all of them they are
// sorted afterwards. As `sort_block` for one block, and for more as above.
pub(crate) fn repeated(text: &[u8], at: usize, n: u64, pairs: usize, keys: &mut [u64]) -> bool
    requires at_in_bounds { (at ≤ length text.now) × (0 < length keys.old) × (n ≤ max_number) × (pairs ≤ max_number) }
    requires at_value { (every (holds_numbers 2) (lines_at text.now at) ≡ true) × (exists (bad_pair n) (pairs_in (lines_at text.now at)) ≡ false) × (pairs ≡ length (lines_at text.now at)) }
    requires keys_value { pairs ≤ length keys.old → take pairs keys.old ≡ keys_in (lines_at text.now at) }
    ensures value { (result ≡ given_again (pairs_in (lines_at text.now at))) × (length keys.new ≡ length keys.old) }
    ensures keys_after { pairs ≤ length keys.old → take pairs keys.new ≡ sorted (keys_in (lines_at text.now at)) }
{
    if pairs <= keys.len() {
        return sort_block(pairs, keys);
    }
    if crowded(n, pairs as u64) {
        return true;
    }
    repeated_in_blocks(text, at, keys)
}
