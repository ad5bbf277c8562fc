// A mesh as lent, and its checks: 1 to 7, with 26 between 6 and 7.
ghost use Rattle.std.specs.Prelude.{◌≡◌, false, IfOk};
ghost use Rattle.plan.specs.Refusals.{fault_of, first_fault};
ghost use Rattle.plan.specs.Mesh.{bad_node_count, bad_mesh_starts, too_many_entries, neighbour_outside, mesh_checks};
ghost use Rattle.mesh.specs.Lent.{lent_by, listed_by, as_lent};

use crate::checked::CheckedMesh;
use crate::listed::Listed;
use crate::{bad_node_count, bad_starts, outside};
use plan::{Plan, Refusal};

// A mesh as lent: n nodes, the starts of their lists, and the entries of all lists, of which nothing is known yet.
// kept: n stands beside the starts, since C lends both, and check 2 compares them.
#[derive(Clone, Copy)]
pub struct LentMesh<'a> {
    pub nodes: usize,
    pub starts: &'a [u32],
    pub neighbours: &'a [u16],
}

impl<'a> LentMesh<'a> {
    // Check 2: bad starts, or the last is not the number of entries. O(n).
    #[tactic(auto, unfolding(plan::specs::Mesh::bad_mesh_starts))]
    fn bad_starts(&self) -> bool
        ensures { result ≡ bad_mesh_starts (lent_by self.now) }
    {
        if bad_starts(self.nodes, self.starts) {
            return true;
        }
        self.starts[self.nodes] as usize != self.neighbours.len()
    }

    // Check 3: too many entries, whatever the nodes and the starts. O(1).
    #[tactic(auto, unfolding(plan::specs::Mesh::too_many_entries))]
    fn too_many_entries(&self) -> bool
        ensures { result ≡ too_many_entries (lent_by self.now) }
    {
        self.neighbours.len() > Plan::ENTRIES
    }

    // Check 4: an entry is n or more, whatever the starts. O(entries).
    #[tactic(auto, unfolding(plan::specs::Mesh::neighbour_outside))]
    fn neighbour_outside(&self) -> bool
        ensures { result ≡ neighbour_outside (lent_by self.now) }
    {
        outside(self.nodes, self.neighbours)
    }

    // The same mesh, behind checks 1 and 2. O(1).
    fn listed(&self) -> Listed<'a>
        requires counted { bad_node_count self.now.nodes ≡ false }
        requires started { bad_mesh_starts (lent_by self.now) ≡ false }
        ensures { listed_by result ≡ lent_by self.now }
    {
        Listed {
            nodes: self.nodes,
            starts: self.starts,
            neighbours: self.neighbours,
        }
    }

    // All checks, and the mesh that has passed them. "Each check covers the whole input before the next begins." O(n + 26 · entries).
    #[tactic(auto, unfolding(plan::specs::Refusals::first_fault, plan::specs::Mesh::mesh_checks))]
    pub fn check(&self) -> Result<CheckedMesh<'a>, Refusal>
        ensures fault { fault_of result ≡ first_fault (mesh_checks (lent_by self.now)) }
        ensures passed { IfOk result (λ mesh. as_lent mesh ≡ lent_by self.now) }
    {
        if bad_node_count(self.nodes) {
            return Err(Refusal::NodeCount);
        }
        if self.bad_starts() {
            return Err(Refusal::Starts);
        }
        if self.too_many_entries() {
            return Err(Refusal::EntryCount);
        }
        if self.neighbour_outside() {
            return Err(Refusal::NeighbourOutside);
        }
        let listed = self.listed();
        if listed.lists_itself() {
            return Err(Refusal::ListsItself);
        }
        if listed.not_ascending() {
            return Err(Refusal::NotAscending);
        }
        if listed.list_too_long() {
            return Err(Refusal::TooManyNeighbours);
        }
        if listed.one_sided() {
            return Err(Refusal::OneSided);
        }
        Ok(CheckedMesh {
            nodes: self.nodes,
            starts: self.starts,
            neighbours: self.neighbours,
        })
    }
}
