// Checks 26 and 8 of a mesh that is made and not lent, by the lengths of its lists.
ghost use Rattle.std.specs.Prelude.{◌≡◌, ◌≤◌, ltb, length, take};
ghost use Rattle.plan.specs.Lists.{exists};
ghost use Rattle.plan.specs.Mesh.{max_neighbours, Mesh};
ghost use Rattle.plan.specs.MadeMesh.{mesh_lengths, mesh_buffers_too_short};

use plan::Plan;

// Check 26 of lists of these lengths: one has more entries than a node may have neighbours. O(n).
pub fn too_long(n: usize, counts: &[u16]) -> bool
    requires { n ≤ length counts.now }
    ensures { result ≡ exists (ltb max_neighbours) (take n counts.now) }
{
    counts[..n]
        .iter()
        .any(|count| usize::from(*count) > Plan::NEIGHBOURS)
}

// Check 8 of a mesh that is made: the starts or the neighbours, lent with these lengths, are too short for n nodes and so many entries. O(1).
pub fn too_short(n: usize, entries: usize, starts: usize, neighbours: usize) -> bool
    ensures { (m : Mesh) → m.nodes ≡ n → length m.neighbours ≡ entries → result ≡ mesh_buffers_too_short m (mesh_lengths starts neighbours) }
{
    if starts <= n {
        return true;
    }
    neighbours < entries
}
