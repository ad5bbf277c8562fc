// The elimination tree and the column counts, without storing a row.
// The columns that have a row are those met by climbing from its earlier neighbours.
ghost use Rattle.std.specs.Prelude.{◌≡◌, cond, map, ◌+◌, ◌≤◌, ◌<◌, eqb, length, take, drop};
ghost use Rattle.plan.specs.Lists.{total, running_sums, written};
ghost use Rattle.plan.specs.Mesh.{max_nodes};
ghost use Rattle.plan.specs.Elimination.{columns, multiplications};
ghost use Rattle.mesh.specs.Lists.{none};
ghost use Rattle.mesh.specs.Lent.{as_lent};
ghost use Rattle.layout.specs.Arrays.{Ordered, CountedBelow, tree_of, Unmarked};
ghost use Rattle.layout.specs.Climbing.{Climbable, Climbed};

use crate::ordered::OrderedMesh;
use mesh::{CheckedMesh, NONE, filled};

// A column's parent once row i has touched it: i, unless an earlier row did. O(1).
fn parent_of(parent: u16, i: u16) -> u16
    ensures { result ≡ cond (eqb parent none) i parent }
{
    if parent == NONE { i } else { parent }
}

// From a neighbour's position up the elimination tree: each column that row i has not marked yet gets the mark and one row more.
// The mark of i itself ends the way. O(columns marked + 1).
fn climb(i: u16, start: u16, tree: &mut [u16], marks: &mut [u16], counts: &mut [u16])
    requires { Climbable i start tree.old marks.old counts.old }
    ensures { (w : Climbable i start tree.old marks.old counts.old) → Climbed w.mesh w.order i start tree.old marks.old counts.old tree.new marks.new counts.new }
{
    if start > i {
        return;
    }
    // kept: the way up the tree goes from parent to parent, and ends where row i has been before
    let mut k = start as usize;
    while marks[k] != i {
        let p = parent_of(tree[k], i);
        tree[k] = p;
        marks[k] = i;
        counts[k] += 1;
        k = p as usize;
    }
}

// Row i: up from each of its earlier neighbours. O(columns that have row i + degree).
fn count_row(
    ordered: &OrderedMesh,
    i: usize,
    tree: &mut [u16],
    marks: &mut [u16],
    counts: &mut [u16],
)
    requires inside { (i < ordered.now.mesh.nodes) × (ordered.now.mesh.nodes ≤ length tree.old) × (ordered.now.mesh.nodes ≤ length marks.old) × (ordered.now.mesh.nodes ≤ length counts.old) }
    requires counted { CountedBelow (as_lent ordered.now.mesh) ordered.now.order.now i tree.old counts.old × Unmarked ordered.now.mesh.nodes i marks.old }
    ensures counted { CountedBelow (as_lent ordered.now.mesh) ordered.now.order.now (i + 1) tree.new counts.new × Unmarked ordered.now.mesh.nodes (i + 1) marks.new }
    ensures rest { (drop ordered.now.mesh.nodes tree.new ≡ drop ordered.now.mesh.nodes tree.old) × (drop ordered.now.mesh.nodes counts.new ≡ drop ordered.now.mesh.nodes counts.old) }
{
    marks[i] = i as u16;
    for &w in ordered.neighbours(i) {
        climb(i as u16, ordered.positions[w as usize], tree, marks, counts);
    }
}

// The elimination tree and the number of rows of each column. O(4,096 + slots + entries).
pub fn count_rows(
    mesh: &CheckedMesh,
    order: &[u16],
    positions: &[u16],
    tree: &mut [u16],
    counts: &mut [u16],
)
    requires { Ordered (as_lent mesh.now) order.now positions.now × (mesh.now.nodes ≤ length tree.old) × (mesh.now.nodes ≤ length counts.old) }
    ensures tree_after { tree.new ≡ written (tree_of (as_lent mesh.now) order.now) tree.old }
    ensures counts_after { counts.new ≡ written (map length (columns (as_lent mesh.now) order.now)) counts.old }
{
    let ordered = OrderedMesh {
        mesh: *mesh,
        order,
        positions,
    };
    let mut marks = filled(NONE);
    tree[..mesh.nodes].fill(NONE);
    counts[..mesh.nodes].fill(0);
    for i in 0..mesh.nodes {
        count_row(&ordered, i, tree, &mut marks, counts);
    }
}

// The number of all slots, and of the multiplications.
#[derive(Clone, Copy)]
pub struct Totals {
    pub slots: u32,
    pub multiplications: u64,
}

// The sums over the columns. O(n).
pub fn sum(n: usize, counts: &[u16]) -> Totals
    requires { (n ≤ max_nodes) × (n ≤ length counts.now) }
    ensures { (result.slots ≡ total (take n counts.now)) × (result.multiplications ≡ multiplications (take n counts.now)) }
{
    let mut slots: u32 = 0;
    let mut multiplications: u64 = 0;
    for &count in &counts[..n] {
        let c = count as u64;
        slots += count as u32;
        multiplications += c * (c + 3) / 2;
    }
    Totals {
        slots,
        multiplications,
    }
}

// Where each column's rows start, and behind the last one the number of all slots. O(n).
pub fn write_starts(n: usize, counts: &[u16], column_starts: &mut [u32])
    requires { (n ≤ max_nodes) × (n ≤ length counts.now) × (n < length column_starts.old) }
    ensures { column_starts.new ≡ written (running_sums 0 (take n counts.now)) column_starts.old }
{
    let mut start: u32 = 0;
    column_starts[0] = 0;
    for (j, &count) in counts[..n].iter().enumerate() {
        start += count as u32;
        column_starts[j + 1] = start;
    }
}
