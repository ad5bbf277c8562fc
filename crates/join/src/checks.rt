// Checks 3, 26 and 8 of the joined mesh, by the lengths of its lists.
ghost use Rattle.std.specs.Prelude.{◌≡◌, ℕ, ◌≤◌, ltb, length, take};
ghost use Rattle.plan.specs.Lists.{exists};
ghost use Rattle.plan.specs.Refusals.{fault_of, first_fault};
ghost use Rattle.plan.specs.Mesh.{max_neighbours, Mesh, list_too_long};
ghost use Rattle.plan.specs.MadeMesh.{mesh_lengths};
ghost use Rattle.join.specs.Checks.{list_checks};

use mesh::{too_long, too_short};
use plan::{Plan, Refusal};

// Checks 3, 26 and 8 of a mesh that is made: by its numbers of nodes and entries, the lengths of its lists, and those of the lent buffers. O(n).
#[tactic(auto, unfolding(plan::specs::Refusals::first_fault, plan::specs::Mesh::too_many_entries, plan::specs::MadeMesh::made_checks, crate::specs::Checks::list_checks))]
pub(crate) fn check_lists(
    n: usize,
    entries: usize,
    counts: &[u16],
    starts: usize,
    neighbours: usize,
) -> Result<(), Refusal>
    requires { n ≤ length counts.now }
    ensures { (m : Mesh) → m.nodes ≡ n → length m.neighbours ≡ entries → list_too_long m ≡ exists (ltb max_neighbours) (take n counts.now) → fault_of result ≡ first_fault (list_checks m (mesh_lengths starts neighbours)) }
{
    if entries > Plan::ENTRIES {
        return Err(Refusal::EntryCount);
    }
    if too_long(n, counts) {
        return Err(Refusal::TooManyNeighbours);
    }
    if too_short(n, entries, starts, neighbours) {
        return Err(Refusal::BuffersTooShort);
    }
    Ok(())
}
