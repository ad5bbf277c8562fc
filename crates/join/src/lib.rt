// Two meshes joined along a list of pairs: checks 1 to 7 and 26 of the first mesh, of the second, 32 and 33, then 1, 3, 26 and 8 of the joined mesh,
// and the joined mesh in the lent buffers.
#![tactic(auto)]

mod checks;
mod lists;
mod merge;
mod numbers;
mod pairing;

ghost use Rattle.plan.specs.MadeMesh.{mesh_buffers};
ghost use Rattle.plan.specs.Joining.{MeshesJoined};
ghost use Rattle.mesh.specs.Lent.{lent_by};
ghost use Rattle.join.specs.Pairings.{pairing_of};

use crate::lists::Merging;
use crate::numbers::{destinations, origins};
use mesh::{LentMesh, bad_node_count};
pub use pairing::Pairing;
use plan::{MeshCounts, Refusal};

// Joining two meshes: the checks in their order, then the joined mesh in the lent buffers. Nothing is written before all checks are passed.
// O(4,096 + n + 26 · entries + pairs), in less than 80 KB of stack.
#[tactic(auto, using(crate::proofs::Joined::refused_first, crate::proofs::Joined::refused_second))]
pub fn join(
    a: &LentMesh,
    b: &LentMesh,
    pairs: &Pairing,
    starts: &mut [u32],
    neighbours: &mut [u16],
) -> Result<MeshCounts, Refusal>
    ensures { MeshesJoined (lent_by a.now) (lent_by b.now) (pairing_of pairs.now) result (mesh_buffers starts.old neighbours.old) (mesh_buffers starts.new neighbours.new) }
{
    let first = a.check()?;
    let second = b.check()?;
    pairs.check(first.nodes, second.nodes)?;
    let nodes = first.nodes + second.nodes - pairs.first.len();
    if bad_node_count(nodes) {
        return Err(Refusal::NodeCount);
    }
    let goes = destinations(first.nodes, second.nodes, pairs);
    let from = origins(second.nodes, &goes);
    let merging = Merging {
        first,
        second,
        nodes,
        goes: &goes,
        from: &from,
    };
    merging.hand_out(starts, neighbours)
}
