// The division of a region: George and Liu's part, and the components of what is left.
ghost use Rattle.std.specs.Prelude.{◌≡◌, cond, [], ◌≤◌, ◌<◌, eqb, length, get_or};
ghost use Rattle.plan.specs.Lists.{exists};
ghost use Rattle.plan.specs.Mesh.{neighbours_of};
ghost use Rattle.plan.specs.Choice.{root_of};
ghost use Rattle.mesh.specs.Lent.{as_lent};
ghost use Rattle.dissection.specs.Numbers.{outside, Within, Only, NumberedBy};
ghost use Rattle.dissection.specs.Standing.{Regional, Standing, separates_at, Parted, Divided};
ghost use Rattle.dissection.specs.Rooted.{Rooted};

use crate::levels::label;
use crate::numbers::{FRESH, OUTSIDE, fill, renumber};
use crate::region::Region;
use crate::root::search;
use crate::touch::Touch;
use mesh::CheckedMesh;

// Whether node v has a neighbour with number x. O(degree).
fn next_to(mesh: &CheckedMesh, v: usize, x: u16, numbers: &[u16]) -> bool
    requires { (v < mesh.now.nodes) × (mesh.now.nodes ≤ length numbers.now) }
    ensures { result ≡ exists (λ w. eqb (get_or numbers.now w 0) x) (neighbours_of (as_lent mesh.now) v) }
{
    mesh.list(v).iter().any(|&w| numbers[w as usize] == x)
}

// Whether node v has number j and a neighbour with number j + 1. O(degree).
fn separates(mesh: &CheckedMesh, v: usize, j: u16, numbers: &[u16]) -> bool
    requires { (v < mesh.now.nodes) × (mesh.now.nodes ≤ length numbers.now) × (j < mesh.now.nodes) }
    ensures { result ≡ separates_at (as_lent mesh.now) j numbers.now v }
{
    numbers[v] == j && next_to(mesh, v, j + 1, numbers)
}

// The number of node v where the separator has been left out. O(degree).
fn separated(mesh: &CheckedMesh, v: usize, j: u16, numbers: &[u16]) -> u16
    requires { (v < mesh.now.nodes) × (mesh.now.nodes ≤ length numbers.now) × (j < mesh.now.nodes) }
    ensures { result ≡ cond (separates_at (as_lent mesh.now) j numbers.now v) outside (get_or numbers.now v 0) }
{
    if separates(mesh, v, j, numbers) {
        OUTSIDE
    } else {
        numbers[v]
    }
}

// The nodes of the separator, those of level j that have a neighbour in level j + 1, are left out. In place: a number that changes is j, and only j
// and j + 1 are looked for. O(length + entries of level j).
fn separate(region: &Region, j: u16, numbers: &mut [u16])
    requires { (region.now.mesh.nodes ≤ length numbers.old) × (j < region.now.mesh.nodes) }
    ensures { NumberedBy (λ v. cond (separates_at (as_lent region.now.mesh) j numbers.old v) outside (get_or numbers.old v 0)) region.now.nodes.now numbers.old numbers.new }
{
    for &v in region.nodes {
        let v = v as usize;
        numbers[v] = separated(&region.mesh, v, j, numbers);
    }
}

// A region's part is left out and its other nodes become fresh, by the levels that stand in the numbers. "If ℓ is 0 or 1 the whole region is one
// part". O(length + entries of the cut level).
fn choose(region: &Region, last: u16, numbers: &mut [u16])
    requires long { region.now.mesh.nodes ≤ length numbers.old }
    requires rooted { Rooted (as_lent region.now.mesh) region.now.nodes.now (root_of (as_lent region.now.mesh) region.now.nodes.now) last × Standing (as_lent region.now.mesh) region.now.nodes.now (root_of (as_lent region.now.mesh) region.now.nodes.now) numbers.old }
    ensures { Parted (as_lent region.now.mesh) region.now.nodes.now numbers.new }
{
    if last <= 1 {
        fill(region.nodes, OUTSIDE, numbers);
        return;
    }
    separate(region, (last + 1) / 2, numbers);
    renumber(
        region.nodes,
        |x| if x == OUTSIDE { OUTSIDE } else { FRESH },
        numbers,
    );
}

// kept: the arrays that are written stay parameters of their own, since clauses tell what each holds before and after.

// A region divided: the nodes of the regions left get the numbers 0, 1, .. of their regions, by smallest node, and those of the part the number
// behind them, which is returned. O(candidates tried · entries of the region).
pub(crate) fn divide<T: Touch>(
    region: &Region,
    at: u16,
    numbers: &mut [u16],
    trial: &mut [u16],
    queue: &mut [u16],
    begins: &mut [u16],
) -> usize
    requires { Regional (as_lent region.now.mesh) region.now.nodes.now numbers.old queue.old × Only region.now.mesh.nodes [] trial.old × (region.now.mesh.nodes ≤ length trial.old) × (region.now.mesh.nodes < length begins.old) × (at ≤ region.now.mesh.nodes) }
    ensures { Divided (as_lent region.now.mesh) region.now.nodes.now at numbers.new begins.new result × Only region.now.mesh.nodes [] trial.new }
{
    let last = search::<T>(region, numbers, trial, queue, begins);
    choose(region, last, numbers);
    let count = label::<T>(region, at, numbers, queue, begins);
    let part = count as u16;
    renumber(
        region.nodes,
        |x| if x == OUTSIDE { part } else { x },
        numbers,
    );
    count
}
