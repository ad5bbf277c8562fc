// A lent mesh and its checks, 1 to 7 and 26; and what other crates use of lists that stand one after the other, of arrays with a place for each node,
// and of a mesh that is made.
#![tactic(auto)]

mod checked;
mod lent;
mod listed;
mod made;

ghost use Rattle.std.specs.Prelude.{◌≡◌, leb, length};
ghost use Rattle.plan.specs.Lists.{exists, is_in, list_at, falls};
ghost use Rattle.plan.specs.Mesh.{max_nodes, bad_node_count, bad_starts};
ghost use Rattle.mesh.specs.Lists.{filled_with, ListWithin};

pub use checked::CheckedMesh;
pub use lent::LentMesh;
pub use made::{too_long, too_short};
use plan::Plan;

// no node, position or part
// kept: a number and no Option, which 16 bits do not hold: it stands in arrays with a place for each node
pub const NONE: u16 = 65535;

// An array with a place for each of the most nodes that a mesh may have, the same number at each. O(4,096).
pub fn filled(x: u16) -> [u16; Plan::NODES]
    ensures { (result ≡ filled_with x) × (length result ≡ max_nodes) }
{
    [x; Plan::NODES]
}

// Check 1: no node, or too many. O(1).
pub fn bad_node_count(n: usize) -> bool
    ensures { result ≡ bad_node_count n }
{
    n == 0 || n > Plan::NODES
}

// Whether a number is less than the one before it. O(length).
fn falling(numbers: &[u32]) -> bool
    ensures { result ≡ falls numbers.now }
{
    !numbers.is_sorted()
}

// The first part of check 2: there are not n + 1 starts, the first is not 0, or they fall.
// n may be any number, also the greatest, to which no 1 can be added. O(n).
#[tactic(auto, unfolding(plan::specs::Mesh::bad_starts))]
pub fn bad_starts(n: usize, starts: &[u32]) -> bool
    ensures { result ≡ bad_starts n starts.now }
{
    if starts.is_empty() {
        return true;
    }
    if starts.len() - 1 != n {
        return true;
    }
    if starts[0] != 0 {
        return true;
    }
    falling(starts)
}

// Whether one of some nodes is n or more, and so none. O(length).
pub fn outside(n: usize, nodes: &[u16]) -> bool
    ensures { result ≡ exists (leb n) nodes.now }
{
    nodes.iter().any(|v| usize::from(*v) >= n)
}

// Node v's list, as a part of the entries. O(1).
#[tactic(auto, unfolding(plan::specs::Lists::list_at))]
pub fn list<'a>(starts: &[u32], entries: &'a [u16], v: usize) -> &'a [u16]
    requires { ListWithin starts.now entries.now v }
    ensures { result.now ≡ list_at starts.now entries.now v }
{
    &entries[starts[v] as usize..starts[v + 1] as usize]
}

// Whether x stands in a list of any order. Each entry is looked at, whether x was found before or not: no branch has to be guessed. O(length).
pub fn contains(entries: &[u16], x: u16) -> bool
    ensures { result ≡ is_in x entries.now }
{
    let mut found = false;
    for y in entries {
        found |= *y == x;
    }
    found
}
