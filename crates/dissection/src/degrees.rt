// A node of least degree in each group of a region's nodes. Degree counts only neighbours in the region: those that are not outside in its numbers.
ghost use Rattle.std.specs.Prelude.{◌≡◌, cond, [], ℕ, ◌≤◌, ◌<◌, eqb, length, get_or};
ghost use Rattle.mesh.specs.Lent.{as_lent};
ghost use Rattle.mesh.specs.Lists.{none};
ghost use Rattle.dissection.specs.Numbers.{outside, Within, grouped};
ghost use Rattle.dissection.specs.Degrees.{degree_by, Compared, Leads};

use crate::numbers::OUTSIDE;
use crate::region::Region;
use mesh::{CheckedMesh, NONE};

// kept: the arrays that are written stay parameters of their own, since clauses tell what each holds before and after.

// The degree of node v in the region whose nodes are not outside in the numbers. O(entries of v).
fn degree(mesh: &CheckedMesh, v: usize, numbers: &[u16]) -> u16
    requires { (v < mesh.now.nodes) × (mesh.now.nodes ≤ length numbers.now) }
    ensures { result ≡ degree_by (as_lent mesh.now) numbers.now v }
{
    mesh.list(v)
        .iter()
        .filter(|&&w| numbers[w as usize] != OUTSIDE)
        .count() as u16
}

// Node v takes the lead of its group, where it is in one of the first `count`, if its degree is less than the least so far. O(entries of v).
fn compare(
    mesh: &CheckedMesh,
    v: u16,
    numbers: &[u16],
    groups: &[u16],
    count: usize,
    best: &mut [u16],
    degrees: &mut [u16],
)
    requires { (v < mesh.now.nodes) × (mesh.now.nodes ≤ length numbers.now) × (mesh.now.nodes ≤ length groups.now) × (count ≤ length best.old) × (count ≤ length degrees.old) }
    ensures { Compared (degree_by (as_lent mesh.now) numbers.now) v groups.now count best.old degrees.old best.new degrees.new }
{
    let u = v as usize;
    let c = groups[u] as usize;
    if c >= count {
        return;
    }
    let d = degree(mesh, u, numbers);
    if d < degrees[c] {
        best[c] = v;
        degrees[c] = d;
    }
}

// No group has a least degree yet: the number that stands for none is greater than any. O(count).
fn clear(count: usize, degrees: &mut [u16])
    requires { count ≤ length degrees.old }
    ensures { (c : ℕ) → c < count → get_or degrees.new c 0 ≡ none }
{
    degrees[..count].fill(NONE);
}

// In each of the first `count` groups of the nodes a node of least degree, the smallest on a tie, and its degree.
// O(length + entries of the groups' nodes).
pub(crate) fn least(
    region: &Region,
    numbers: &[u16],
    groups: &[u16],
    count: usize,
    best: &mut [u16],
    degrees: &mut [u16],
)
    requires { (region.now.mesh.nodes ≤ length numbers.now) × (region.now.mesh.nodes ≤ length groups.now) × (count ≤ length best.old) × (count ≤ length degrees.old) }
    ensures { (c : ℕ) → c < count → Leads (degree_by (as_lent region.now.mesh) numbers.now) (get_or (grouped count groups.now region.now.nodes.now) c []) (get_or best.new c 0) (get_or degrees.new c 0) }
{
    clear(count, degrees);
    for &v in region.nodes {
        compare(&region.mesh, v, numbers, groups, count, best, degrees);
    }
}
