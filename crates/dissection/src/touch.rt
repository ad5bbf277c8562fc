// How a walk touches the entries of a list: in two ways, of which one suits a mesh, for speed alone.
ghost use Rattle.std.specs.Prelude.{◌≡◌, cond, ℕ, ◌≤◌, ◌<◌, eqb, length};
ghost use Rattle.dissection.specs.Numbers.{fresh};
ghost use Rattle.dissection.specs.Spread.{Spread, Room};

use crate::numbers::FRESH;
use mesh::CheckedMesh;

// A mesh with no longer list is a path, a tree, a grid or a regular triangulation, as a rule: the processor learns which entries are fresh.
const REGULAR: usize = 6;
// Of longer lists nearly all entries are reached already, and the processor learns that.
const SHORT: usize = 15;

// Whether nothing predicts which entries of a list are fresh: a guess by the longest list, for speed alone, on which no promise rests. O(n).
pub(crate) fn is_irregular(mesh: &CheckedMesh) -> bool {
    let mut longest: usize = 0;
    for v in 0..mesh.nodes {
        longest = longest.max(mesh.list(v).len());
    }
    REGULAR < longest && longest <= SHORT
}

// A way to touch one entry: node w gets number x and a place in the queue if it is fresh. The queue's new end is returned. O(1).
pub(crate) trait Touch {
    fn touch(w: u16, x: u16, numbers: &mut [u16], queue: &mut [u16], tail: usize) -> usize
        requires { (w < length numbers.old) × (tail < length queue.old) }
        ensures { (n : ℕ) → w < n → x < fresh → Room n numbers.old queue.old tail → Spread n x tail numbers.old queue.old (λ v. eqb v w) numbers.new queue.new result };
}

// Where the processor predicts whether a node is fresh.
pub(crate) struct Predicted;

impl Touch for Predicted {
    fn touch(w: u16, x: u16, numbers: &mut [u16], queue: &mut [u16], tail: usize) -> usize {
        let v = w as usize;
        if numbers[v] != FRESH {
            return tail;
        }
        numbers[v] = x;
        queue[tail] = w;
        tail + 1
    }
}

// The number of a node that is touched: x where it was fresh, else its own. O(1).
fn taken(old: u16, x: u16) -> u16
    ensures { result ≡ cond (eqb old fresh) x old }
{
    if old == FRESH { x } else { old }
}

// How many places a node with this number takes in the queue: one where it is fresh, none elsewhere. O(1).
fn places(old: u16) -> usize
    ensures { (result ≡ cond (eqb old fresh) 1 0) × (result ≤ 1) }
{
    usize::from(old == FRESH)
}

// Where nothing predicts it.
pub(crate) struct Unpredicted;

impl Touch for Unpredicted {
    // Nothing is jumped over: the place behind the queue's end is written either way, and only the end moves or stays.
    fn touch(w: u16, x: u16, numbers: &mut [u16], queue: &mut [u16], tail: usize) -> usize {
        let v = w as usize;
        let old = numbers[v];
        queue[tail] = w;
        numbers[v] = taken(old, x);
        tail + places(old)
    }
}
