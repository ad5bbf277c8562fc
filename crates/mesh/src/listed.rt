// A lent mesh whose lists can be told apart, and the checks of its lists: 5, 6, 26 and 7.
ghost use Rattle.std.specs.Prelude.{◌≡◌, false, Bool, List, ℕ, ◌<◌};
ghost use Rattle.plan.specs.Lists.{exists, below, ascending};
ghost use Rattle.plan.specs.Mesh.{lent, neighbours_of, bad_node_count, bad_mesh_starts, neighbour_outside, lists_itself, not_ascending, list_too_long, one_sided};
ghost use Rattle.mesh.specs.Lists.{TellsLists};

use crate::{contains, list};
use plan::Plan;

// A mesh that has passed checks 1 and 2, so that each node has a list.
#[derive(Clone, Copy)]
pub(crate) struct Listed<'a> {
    pub(crate) nodes: usize,
    pub(crate) starts: &'a [u32],
    pub(crate) neighbours: &'a [u16],
    ghost counted: { bad_node_count nodes ≡ false },
    ghost started: { bad_mesh_starts (lent nodes starts.now neighbours.now) ≡ false },
}

// Whether each entry of a list is greater than the one before it. O(length).
fn ascends(entries: &[u16]) -> bool
    ensures { result ≡ ascending entries.now }
{
    entries.is_sorted_by(|a, b| a < b)
}

impl<'a> Listed<'a> {
    ghost use Rattle.mesh.specs.Lent.{listed_by};

    // Node v's list. O(1).
    #[tactic(auto, unfolding(plan::specs::Mesh::neighbours_of))]
    fn list(&self, v: usize) -> &'a [u16]
        requires { v < self.now.nodes }
        ensures { result.now ≡ neighbours_of (listed_by self.now) v }
    {
        list(self.starts, self.neighbours, v)
    }

    // Checks 5, 6 and 26: whether some node's list breaks a rule. O(n), and what the rule costs.
    fn some_list<F: Fn(u16, &[u16]) -> bool>(&self, breaks: F) -> bool
        requires callable { F.IsAlwaysCallable breaks }
        ensures { (rule : ℕ → List ℕ → Bool) → TellsLists F.Fn breaks rule → result ≡ exists (λ v. rule v (neighbours_of (listed_by self.now) v)) (below self.now.nodes) }
    {
        for v in 0..self.nodes {
            if breaks(v as u16, self.list(v)) {
                return true;
            }
        }
        false
    }

    // Check 5: a node lists itself. O(n + entries).
    pub(crate) fn lists_itself(&self) -> bool
        ensures { result ≡ lists_itself (listed_by self.now) }
    {
        self.some_list(|v, list| contains(list, v))
    }

    // Check 6: a list is not strictly ascending. O(n + entries).
    pub(crate) fn not_ascending(&self) -> bool
        ensures { result ≡ not_ascending (listed_by self.now) }
    {
        self.some_list(|_, list| !ascends(list))
    }

    // Check 26: a list has more entries than a node may have neighbours. O(n).
    pub(crate) fn list_too_long(&self) -> bool
        ensures { result ≡ list_too_long (listed_by self.now) }
    {
        self.some_list(|_, list| list.len() > Plan::NEIGHBOURS)
    }

    // Check 7: an entry is one-sided, w in v's list and v not in w's. "The first one-sided entry ends the whole comparison of lists."
    // Behind check 26 a list is read through in 26 steps at most, without a branch to guess: O(n + 26 · entries).
    pub(crate) fn one_sided(&self) -> bool
        requires { neighbour_outside (listed_by self.now) ≡ false }
        ensures { result ≡ one_sided (listed_by self.now) }
    {
        let mut missing = false;
        // kept: document 01 has nested loops here, left from inside by a label
        'nodes: for v in 0..self.nodes {
            for w in self.list(v) {
                missing = !contains(self.list(*w as usize), v as u16);
                if missing {
                    break 'nodes;
                }
            }
        }
        missing
    }
}
