// Two meshes merged: the lists of the joined mesh, counted, checked and written.
ghost use Rattle.std.specs.Prelude.{◌≡◌, ◌≤◌, length, take};
ghost use mathlib.Core.List.{map, flatten};
ghost use Rattle.plan.specs.Lists.{written};
ghost use Rattle.plan.specs.Mesh.{max_nodes, neighbours_of};
ghost use Rattle.plan.specs.MadeMesh.{mesh_buffers};
ghost use Rattle.mesh.specs.Lent.{as_lent};
ghost use Rattle.join.specs.Lists.{Mergeable};
ghost use Rattle.join.specs.Checks.{ListsHanded};

use crate::checks::check_lists;
use crate::merge::{count_merged, write_merged};
use layout::{sum, write_starts};
use mesh::{CheckedMesh, filled};
use plan::{MeshCounts, Plan, Refusal};

// Node v's list; no entries where v is no node. O(1).
fn neighbours_of<'a>(mesh: &CheckedMesh<'a>, v: usize) -> &'a [u16]
    ensures { result.now ≡ neighbours_of (as_lent mesh.now) v }
{
    if v < mesh.nodes { mesh.list(v) } else { &[] }
}

// Two checked meshes that make one of so many nodes: `goes` says where the nodes of the second go, no two of them to the same one, and `from` where those
// of the joined mesh come from.
#[derive(Clone, Copy)]
pub(crate) struct Merging<'a> {
    pub(crate) first: CheckedMesh<'a>,
    pub(crate) second: CheckedMesh<'a>,
    pub(crate) nodes: usize,
    pub(crate) goes: &'a [u16],
    pub(crate) from: &'a [u16],
    ghost mergeable: { Mergeable (as_lent first) (as_lent second) goes.now from.now nodes },
}

impl<'a> Merging<'a> {
    ghost use Rattle.join.specs.Merged.{lists_of, made_by};

    // The length of each list of the joined mesh. O(4,096 + n + 26 · entries).
    fn count_entries(&self) -> [u16; Plan::NODES]
        ensures { (length result ≡ max_nodes) × (take self.now.nodes result ≡ map length (lists_of self.now self.now.nodes)) }
    {
        let mut counts = filled(0);
        for v in 0..self.nodes {
            let ones = neighbours_of(&self.first, v);
            let others = neighbours_of(&self.second, self.from[v] as usize);
            counts[v] = count_merged(ones, others, self.goes) as u16;
        }
        counts
    }

    // All lists, one after the other, at the front of a buffer. O(n + 26 · entries).
    fn write_entries(&self, neighbours: &mut [u16])
        requires { length (flatten (lists_of self.now self.now.nodes)) ≤ length neighbours.old }
        ensures { neighbours.new ≡ written (flatten (lists_of self.now self.now.nodes)) neighbours.old }
    {
        let mut at: usize = 0;
        for v in 0..self.nodes {
            let ones = neighbours_of(&self.first, v);
            let others = neighbours_of(&self.second, self.from[v] as usize);
            at += write_merged(ones, others, self.goes, &mut neighbours[at..]);
        }
    }

    // What is left of joining: checks 3, 26 and 8, by the lengths of the lists, then the joined mesh in the lent buffers. O(4,096 + n + 26 · entries).
    pub(crate) fn hand_out(
        &self,
        starts: &mut [u32],
        neighbours: &mut [u16],
    ) -> Result<MeshCounts, Refusal>
        ensures { ListsHanded (made_by self.now) result (mesh_buffers starts.old neighbours.old) (mesh_buffers starts.new neighbours.new) }
    {
        let counts = self.count_entries();
        let entries = sum(self.nodes, &counts).slots;
        check_lists(
            self.nodes,
            entries as usize,
            &counts,
            starts.len(),
            neighbours.len(),
        )?;
        write_starts(self.nodes, &counts, starts);
        self.write_entries(neighbours);
        Ok(MeshCounts {
            nodes: self.nodes as u32,
            entries,
        })
    }
}
