// Levels from a root and connected components, over lent arrays. A walk goes over the fresh nodes; any other number keeps it out.
ghost use Rattle.std.specs.Prelude.{◌≡◌, ◌⊎◌, true, cond, ℕ, ◌+◌, ◌≤◌, ◌<◌, max, eqb, length, get_or};
ghost use Rattle.plan.specs.Lists.{exists, is_in, segment};
ghost use Rattle.plan.specs.Mesh.{adjacent};
ghost use Rattle.mesh.specs.Lent.{as_lent};
ghost use Rattle.dissection.specs.Numbers.{fresh, fresh_of, Within, Walked, Skipped, Taken, Labelled};
ghost use Rattle.dissection.specs.Spread.{Spread, Room};

use crate::numbers::{FRESH, fill};
use crate::region::Region;
use crate::touch::Touch;
use mesh::CheckedMesh;

// kept: the arrays that are written stay parameters of their own, since clauses tell what each holds before and after.

// The list of node u: each entry is touched, and the queue's new end is returned. O(degree).
fn visit<T: Touch>(
    mesh: &CheckedMesh,
    u: usize,
    x: u16,
    numbers: &mut [u16],
    queue: &mut [u16],
    tail: usize,
) -> usize
    requires { (u < mesh.now.nodes) × (x < fresh) × Room mesh.now.nodes numbers.old queue.old tail }
    ensures { Spread mesh.now.nodes x tail numbers.old queue.old (adjacent (as_lent mesh.now) u) numbers.new queue.new result }
{
    let mut end = tail;
    for &w in mesh.list(u) {
        end = T::touch(w, x, numbers, queue, end);
    }
    end
}

// The lists of the nodes that stand in the queue from place lo up to, not including, hi, are visited. The queue's new end is returned.
// O(their entries).
fn advance<T: Touch>(
    mesh: &CheckedMesh,
    x: u16,
    numbers: &mut [u16],
    queue: &mut [u16],
    lo: usize,
    hi: usize,
) -> usize
    requires { (x < fresh) × (lo ≤ hi) × Room mesh.now.nodes numbers.old queue.old hi × ((k : ℕ) → k < hi → get_or queue.old k 0 < mesh.now.nodes) }
    ensures { Spread mesh.now.nodes x hi numbers.old queue.old (λ v. exists (λ u. adjacent (as_lent mesh.now) u v) (segment queue.old lo hi)) numbers.new queue.new result }
{
    let (reached, places) = queue.split_at_mut(hi);
    let mut end: usize = 0;
    for &u in &reached[lo..] {
        end = visit::<T>(mesh, u as usize, x, numbers, places, end);
    }
    hi + end
}

// What a walk tells: the number of the last level (document 01: ℓ), the node count of the widest level, and how many nodes were reached.
#[derive(Clone, Copy)]
pub(crate) struct Reach {
    pub(crate) last: u16,
    pub(crate) width: usize,
    pub(crate) reached: usize,
}

// Levels from a root within the fresh nodes: each node reached gets its level's number and stands in the queue. O(entries of the nodes reached).
pub(crate) fn walk<T: Touch>(
    mesh: &CheckedMesh,
    root: u16,
    numbers: &mut [u16],
    queue: &mut [u16],
) -> Reach
    requires { (root < mesh.now.nodes) × (get_or numbers.old root 0 ≡ fresh) × (mesh.now.nodes ≤ length numbers.old) × (mesh.now.nodes < length queue.old) }
    ensures { Walked mesh.now.nodes (adjacent (as_lent mesh.now)) (fresh_of mesh.now.nodes numbers.old) root numbers.old numbers.new queue.new result.last result.width result.reached }
{
    numbers[root as usize] = 0;
    queue[0] = root;
    let mut last: u16 = 0;
    let mut width: usize = 1;
    let mut lo: usize = 0;
    let mut hi: usize = 1;
    loop {
        let tail = advance::<T>(mesh, last + 1, numbers, queue, lo, hi);
        if tail <= hi {
            break;
        }
        width = width.max(tail - hi);
        lo = hi;
        hi = tail;
        last += 1;
    }
    Reach {
        last,
        width,
        reached: hi,
    }
}

// The component of node v, where v is fresh: its nodes get the number `count`, and the place behind them is noted. The number of components
// so far is returned. O(entries of the nodes reached).
fn component<T: Touch>(
    mesh: &CheckedMesh,
    v: u16,
    numbers: &mut [u16],
    queue: &mut [u16],
    begins: &mut [u16],
    count: usize,
) -> usize
    requires bounded { (v < mesh.now.nodes) × (mesh.now.nodes ≤ length numbers.old) × (mesh.now.nodes < length queue.old) × (mesh.now.nodes < length begins.old) }
    requires count_lt_n { (get_or numbers.old v 0 ≡ fresh → count < mesh.now.nodes) × (get_or begins.old count 0 ≤ mesh.now.nodes + mesh.now.nodes) }
    ensures { Skipped v numbers.old numbers.new begins.old begins.new count result ⊎ Taken mesh.now.nodes (adjacent (as_lent mesh.now)) v numbers.old numbers.new begins.old begins.new count result }
{
    if numbers[v as usize] != FRESH {
        return count;
    }
    let reached = walk::<T>(mesh, v, numbers, queue).reached;
    fill(&queue[..reached], count as u16, numbers);
    begins[count + 1] = begins[count] + reached as u16;
    count + 1
}

// The connected components of the fresh nodes, which all stand in a list whose other nodes have numbers from n on: those of component c get
// number c, the components being counted by their smallest nodes. Where they begin, standing one after the other from place `at`, is noted,
// and their number is returned. O(length + entries of the nodes reached).
pub(crate) fn label<T: Touch>(
    region: &Region,
    at: u16,
    numbers: &mut [u16],
    queue: &mut [u16],
    begins: &mut [u16],
) -> usize
    requires listed { ((v : ℕ) → is_in v (fresh_of region.now.mesh.nodes numbers.old) ≡ true → is_in v region.now.nodes.now ≡ true) × ((v : ℕ) → is_in v region.now.nodes.now ≡ true → region.now.mesh.nodes ≤ get_or numbers.old v 0) }
    requires at_le_n { (at ≤ region.now.mesh.nodes) × (region.now.mesh.nodes ≤ length numbers.old) × (region.now.mesh.nodes < length queue.old) × (region.now.mesh.nodes < length begins.old) }
    ensures { Labelled region.now.mesh.nodes (adjacent (as_lent region.now.mesh)) region.now.nodes.now at numbers.old numbers.new begins.new result }
{
    begins[0] = at;
    let mut count: usize = 0;
    for &v in region.nodes {
        count = component::<T>(&region.mesh, v, numbers, queue, begins, count);
    }
    count
}
