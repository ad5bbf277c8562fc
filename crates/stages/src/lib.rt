// For the benchmark alone: planning as far as the dissection, so that bench/ can tell the stages of planning apart. No other caller needs it.
#![tactic(auto)]

ghost use Rattle.std.specs.Prelude.{◌≡◌, cond, eqb, length};
ghost use Rattle.plan.specs.Refusals.{first_fault};
ghost use Rattle.plan.specs.Mesh.{lent, mesh_checks};
ghost use Rattle.plan.specs.Dissection.{parts};
ghost use Rattle.plan.specs.Planning.{dissection_of};

use dissection::dissect;
use mesh::LentMesh;

// kept: the C interface: flat parameters, and a count that is 0 where a check refuses.

// Checks 1 to 7 and 26, then the dissection: the number of parts, 0 where a check refuses. O(n + 26 · entries + dissection).
#[unsafe(no_mangle)]
pub extern "C" fn stage_order(n: usize, starts: &[u32], neighbours: &[u16]) -> usize
    ensures { result ≡ cond (eqb (first_fault (mesh_checks (lent n starts.now neighbours.now))) 0)
        (length (parts (dissection_of (lent n starts.now neighbours.now)))) 0 }
{
    let lent = LentMesh {
        nodes: n,
        starts,
        neighbours,
    };
    let Ok(mesh) = lent.check() else {
        return 0;
    };
    dissect(&mesh).parts
}
