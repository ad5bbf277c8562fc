// The pseudo-peripheral root of a region (document 01: its starting root): a search that goes on while a candidate is farther, or as far and slimmer.
ghost use Rattle.std.specs.Prelude.{◌≡◌, true, false, ◌&&◌, ◌||◌, ℕ, ◌≤◌, ◌<◌, eqb, ltb, length, take};
ghost use mathlib.Core.List.{[], head_d};
ghost use Rattle.plan.specs.Lists.{is_in, keep};
ghost use Rattle.plan.specs.Choice.{candidates as candidates_of, improves, next_root, root_of};
ghost use Rattle.mesh.specs.Lent.{as_lent};
ghost use Rattle.dissection.specs.Numbers.{Only};
ghost use Rattle.dissection.specs.Standing.{Regional, Standing};
ghost use Rattle.dissection.specs.Rooted.{Rooted, Measured, Better};

use crate::degrees::least;
use crate::levels::{label, walk};
use crate::numbers::{FRESH, OUTSIDE, fill, renumber, transfer};
use crate::region::Region;
use crate::touch::Touch;

// kept: the arrays that are written stay parameters of their own, since clauses tell what each holds before and after.

// A root with the number of its last level (document 01: ℓ) and the node count of its widest level.
#[derive(Clone, Copy)]
pub(crate) struct Root {
    pub(crate) node: u16,
    pub(crate) last: u16,
    pub(crate) width: usize,
}

// Whether the next root replaces the root: its last level has a greater number, or an equal one and its widest level fewer nodes. O(1).
fn replaces(next: Root, root: Root) -> bool
    ensures { result ≡ (ltb root.last next.last || (eqb next.last root.last && ltb next.width root.width)) }
{
    next.last > root.last || (next.last == root.last && next.width < root.width)
}

// The candidates of a root whose levels stand in `levels`: of each component of its last level a node of least degree in the region. Their number is
// returned. `found` has the places where the components begin until the candidates are written over them, and `queue` their degrees at the end.
// O(length + entries of the last level).
fn candidates<T: Touch>(
    region: &Region,
    root: Root,
    levels: &[u16],
    trial: &mut [u16],
    queue: &mut [u16],
    found: &mut [u16],
) -> usize
    requires regional { Regional (as_lent region.now.mesh) region.now.nodes.now trial.old queue.old × (region.now.mesh.nodes ≤ length levels.now) × (region.now.mesh.nodes < length found.old) }
    requires rooted { Rooted (as_lent region.now.mesh) region.now.nodes.now root.node root.last × Standing (as_lent region.now.mesh) region.now.nodes.now root.node levels.now }
    ensures { (take result found.new ≡ candidates_of (as_lent region.now.mesh) region.now.nodes.now root.node) × (result ≤ region.now.mesh.nodes) × Only region.now.mesh.nodes region.now.nodes.now trial.new }
{
    transfer(region.nodes, levels, trial);
    let last = root.last;
    renumber(
        region.nodes,
        |x| if x == last { FRESH } else { OUTSIDE },
        trial,
    );
    let count = label::<T>(region, 0, trial, queue, found);
    least(region, levels, trial, count, found, queue);
    count
}

// The levels from node r, which then stand in the numbers. Returned is the root r with the number of its last level and the node count of its widest.
// O(length + entries of the region).
fn levels_from<T: Touch>(region: &Region, r: u16, numbers: &mut [u16], queue: &mut [u16]) -> Root
    requires { Regional (as_lent region.now.mesh) region.now.nodes.now numbers.old queue.old × (is_in r region.now.nodes.now ≡ true) }
    ensures { (result.node ≡ r) × Measured (as_lent region.now.mesh) region.now.nodes.now r result.last result.width × Standing (as_lent region.now.mesh) region.now.nodes.now r numbers.new }
{
    fill(region.nodes, FRESH, numbers);
    let w = walk::<T>(&region.mesh, r, numbers, queue);
    Root {
        node: r,
        last: w.last,
        width: w.width,
    }
}

// The first of the candidates that replaces the root, whose levels then stand in the numbers; the root where there is none. The former root, which
// the root has replaced, does not replace it, so it is not walked from. O(candidates · entries of the region).
fn first_better<T: Touch>(
    region: &Region,
    root: Root,
    former: u16,
    found: &[u16],
    numbers: &mut [u16],
    queue: &mut [u16],
) -> Root
    requires regional { Regional (as_lent region.now.mesh) region.now.nodes.now numbers.old queue.old × Measured (as_lent region.now.mesh) region.now.nodes.now root.node root.last root.width × (improves (as_lent region.now.mesh) region.now.nodes.now root.node former ≡ false) }
    requires inside { (x : ℕ) → is_in x found.now ≡ true → is_in x region.now.nodes.now ≡ true }
    ensures { (result.node ≡ head_d (keep (improves (as_lent region.now.mesh) region.now.nodes.now root.node) found.now) root.node) × Better (as_lent region.now.mesh) region.now.nodes.now root.node result.node result.last result.width numbers.new }
{
    for &candidate in found {
        if candidate == former {
            continue;
        }
        let next = levels_from::<T>(region, candidate, numbers, queue);
        if replaces(next, root) {
            return next;
        }
    }
    root
}

// The root after one turn of the search, from one whose levels stand in `levels`; a better one's levels then stand in `trial`.
// O(candidates · entries of the region).
fn improve<T: Touch>(
    region: &Region,
    root: Root,
    former: u16,
    levels: &[u16],
    trial: &mut [u16],
    queue: &mut [u16],
    found: &mut [u16],
) -> Root
    requires regional { Regional (as_lent region.now.mesh) region.now.nodes.now trial.old queue.old × (region.now.mesh.nodes ≤ length levels.now) × (region.now.mesh.nodes < length found.old) }
    requires measured { Measured (as_lent region.now.mesh) region.now.nodes.now root.node root.last root.width × Standing (as_lent region.now.mesh) region.now.nodes.now root.node levels.now × (improves (as_lent region.now.mesh) region.now.nodes.now root.node former ≡ false) }
    ensures { (result.node ≡ next_root (as_lent region.now.mesh) region.now.nodes.now root.node) × Better (as_lent region.now.mesh) region.now.nodes.now root.node result.node result.last result.width trial.new }
{
    let count = candidates::<T>(region, root, levels, trial, queue, found);
    first_better::<T>(region, root, former, &found[..count], trial, queue)
}

// The number of the last level from the region's pseudo-peripheral root, whose levels then stand in the numbers. No root comes twice, since each
// improves on all before it. Candidates are walked from in `trial`, so that the root's own levels stay and are not walked again; in it every node is
// outside, before and after. O(candidates tried · entries of the region).
pub(crate) fn search<T: Touch>(
    region: &Region,
    numbers: &mut [u16],
    trial: &mut [u16],
    queue: &mut [u16],
    found: &mut [u16],
) -> u16
    requires { Regional (as_lent region.now.mesh) region.now.nodes.now numbers.old queue.old × Only region.now.mesh.nodes [] trial.old × (region.now.mesh.nodes ≤ length trial.old) × (region.now.mesh.nodes < length found.old) }
    ensures { Rooted (as_lent region.now.mesh) region.now.nodes.now (root_of (as_lent region.now.mesh) region.now.nodes.now) result × Standing (as_lent region.now.mesh) region.now.nodes.now (root_of (as_lent region.now.mesh) region.now.nodes.now) numbers.new × Only region.now.mesh.nodes [] trial.new }
{
    let mut root = levels_from::<T>(region, region.nodes[0], numbers, queue);
    let mut former = root.node;
    loop {
        let next = improve::<T>(region, root, former, numbers, trial, queue, found);
        if next.node == root.node {
            break;
        }
        transfer(region.nodes, trial, numbers);
        former = root.node;
        root = next;
    }
    fill(region.nodes, OUTSIDE, trial);
    root.last
}
