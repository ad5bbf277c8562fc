// A lent mesh that has passed its checks.
ghost use Rattle.std.specs.Prelude.{◌≡◌, ◌<◌};
ghost use Rattle.plan.specs.Mesh.{lent, neighbours_of};
ghost use Rattle.theory.specs.Checked.{Checked};

use crate::list;

// A lent mesh of which checks 1 to 7 and 26 found no fault: n nodes, the starts of their lists, and the entries of all lists. What planning does
// behind the checks, and joining, takes it.
#[derive(Clone, Copy)]
pub struct CheckedMesh<'a> {
    pub nodes: usize,
    pub starts: &'a [u32],
    pub neighbours: &'a [u16],
    ghost checked: { Checked (lent nodes starts.now neighbours.now) },
}

impl<'a> CheckedMesh<'a> {
    ghost use Rattle.mesh.specs.Lent.{as_lent};

    // Node v's neighbours, as a part of the entries. O(1).
    #[tactic(auto, unfolding(plan::specs::Mesh::neighbours_of))]
    pub fn list(&self, v: usize) -> &'a [u16]
        requires { v < self.now.nodes }
        ensures { result.now ≡ neighbours_of (as_lent self.now) v }
    {
        list(self.starts, self.neighbours, v)
    }
}
