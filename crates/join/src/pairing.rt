// The pairs along which two meshes are joined, and their checks, 32 and 33.
ghost use Rattle.std.specs.Prelude.{◌≡◌, true, [], ◌∷◌, ℕ, ◌≤◌, ◌<◌};
ghost use Rattle.plan.specs.Lists.{is_in, twice};
ghost use Rattle.plan.specs.Refusals.{fault_of, first_fault};
ghost use Rattle.plan.specs.Mesh.{max_nodes};
ghost use Rattle.plan.specs.Joining.{bad_pairing, paired_twice};
ghost use Rattle.join.specs.Pairings.{pairing_of};

use mesh::{filled, outside};
use plan::Refusal;

// Pairs as lent, of which nothing is known yet: pair k is of entry k of `first`, a node of the first mesh, and entry k of `second`, one of the second.
#[derive(Clone, Copy)]
pub struct Pairing<'a> {
    pub first: &'a [u16],
    pub second: &'a [u16],
}

// Whether a node stands twice among some nodes. O(4,096 + length).
fn repeats(nodes: &[u16]) -> bool
    requires { (v : ℕ) → is_in v nodes.now ≡ true → v < max_nodes }
    ensures { result ≡ twice nodes.now }
{
    let mut seen = filled(0);
    for &v in nodes {
        if seen[v as usize] != 0 {
            return true;
        }
        seen[v as usize] = 1;
    }
    false
}

impl<'a> Pairing<'a> {
    // Check 32: the pairs' two lists differ in length, or a pair names a node that does not exist. O(pairs).
    #[tactic(auto, unfolding(plan::specs::Joining::bad_pairing))]
    pub(crate) fn is_bad(&self, n1: usize, n2: usize) -> bool
        ensures { result ≡ bad_pairing n1 n2 (pairing_of self.now) }
    {
        if self.first.len() != self.second.len() {
            return true;
        }
        outside(n1, self.first) || outside(n2, self.second)
    }

    // Check 33: a node of either mesh is paired twice. O(4,096 + pairs).
    #[tactic(auto, unfolding(plan::specs::Joining::paired_twice))]
    fn paired_twice(&self) -> bool
        requires { ((v : ℕ) → is_in v self.now.first.now ≡ true → v < max_nodes) × ((w : ℕ) → is_in w self.now.second.now ≡ true → w < max_nodes) }
        ensures { result ≡ paired_twice (pairing_of self.now) }
    {
        repeats(self.first) || repeats(self.second)
    }

    // Both checks, of pairs of nodes of two meshes with n1 and n2 nodes. O(4,096 + pairs).
    #[tactic(auto, unfolding(plan::specs::Refusals::first_fault))]
    pub(crate) fn check(&self, n1: usize, n2: usize) -> Result<(), Refusal>
        requires { (n1 ≤ max_nodes) × (n2 ≤ max_nodes) }
        ensures { fault_of result ≡ first_fault ((32, bad_pairing n1 n2 (pairing_of self.now)) ∷ (33, paired_twice (pairing_of self.now)) ∷ []) }
    {
        if self.is_bad(n1, n2) {
            return Err(Refusal::Pairing);
        }
        if self.paired_twice() {
            return Err(Refusal::PairedTwice);
        }
        Ok(())
    }
}
