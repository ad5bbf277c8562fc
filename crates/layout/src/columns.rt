// The rows of the columns, each column written at its start in the lent rows.
ghost use Rattle.std.specs.Prelude.{◌≡◌, true, cond, ℕ, ◌+◌, ◌≤◌, ◌<◌, eqb, length, take, set, get_or};
ghost use mathlib.Core.List.{flatten};
ghost use Rattle.plan.specs.Lists.{written, is_in, list_at};
ghost use Rattle.plan.specs.Mesh.{max_nodes};
ghost use Rattle.plan.specs.Elimination.{columns, starts_of};
ghost use Rattle.mesh.specs.Lists.{none, ListWithin};
ghost use Rattle.mesh.specs.Lent.{as_lent};
ghost use Rattle.layout.specs.Arrays.{Ordered, Tree, Rising, Children, Marked, Unmarked, neighbour_position, child_row, marked_below, Meets, rows_before};

use crate::ordered::OrderedMesh;
use mesh::{CheckedMesh, NONE, filled, list};

// Column c is put before the children of its parent, where it has one. `n` is for the contract alone. O(1).
fn link(n: usize, c: usize, tree: &[u16], first: &mut [u16], next: &mut [u16])
    requires { (n ≤ max_nodes) × (n ≤ length tree.now) × Rising n tree.now × (c < n) × Children n tree.now c first.old next.old }
    ensures { Children n tree.now (c + 1) first.new next.new }
{
    let p = tree[c];
    if p == NONE {
        return;
    }
    next[c] = first[p as usize];
    first[p as usize] = c as u16;
}

// The children of each column in the elimination tree, the greatest first. `first` is lent with none at every place. O(n).
fn link_children(n: usize, tree: &[u16], first: &mut [u16], next: &mut [u16])
    requires n_le_max_nodes { (n ≤ max_nodes) × (n ≤ length tree.now) × Rising n tree.now × (n ≤ length first.old) × (n ≤ length next.old) }
    requires by_index { (p : ℕ) → p < n → get_or first.old p 0 ≡ none }
    ensures { Children n tree.now n first.new next.new }
{
    for c in 0..n {
        link(n, c, tree, first, next);
    }
}

// The positions of the neighbours of the node at position j get the mark j. O(degree).
fn mark_neighbours(ordered: &OrderedMesh, j: usize, marks: &mut [u16])
    requires { (j < ordered.now.mesh.nodes) × (ordered.now.mesh.nodes ≤ length marks.old) }
    ensures { Marked j (neighbour_position (as_lent ordered.now.mesh) ordered.now.order.now ordered.now.positions.now j) marks.old marks.new }
{
    for &w in ordered.neighbours(j) {
        marks[ordered.positions[w as usize] as usize] = j as u16;
    }
}

// Each of some rows gets the mark j. O(length).
pub fn mark_rows(rows: &[u16], j: u16, marks: &mut [u16])
    requires { (i : ℕ) → is_in i rows.now ≡ true → i < length marks.old }
    ensures { Marked j (λ i. is_in i rows.now) marks.old marks.new }
{
    for &i in rows {
        marks[i as usize] = j;
    }
}

// Position k is written at place `at`, and the place moves on if k has the mark j; if not, the next position is written over k.
// A store costs less here than a branch that nothing predicts. O(1).
fn put(k: u16, j: u16, marks: &[u16], at: usize, rows: &mut [u16]) -> usize
    requires { (k < length marks.now) × (at < length rows.old) }
    ensures { (result ≡ at + cond (eqb (get_or marks.now k 0) j) 1 0) × (rows.new ≡ set rows.old at k) }
{
    rows[at] = k;
    at + usize::from(marks[k as usize] == j)
}

// One column's rows, ascending, at the front of a part of the rows: up the elimination tree from column j, each position with the mark j is one.
// The last of `count` rows ends the way, so that nothing is written behind them. `n` is for the contract alone. O(the way to the last row).
fn write_column(n: usize, j: u16, count: usize, tree: &[u16], marks: &[u16], rows: &mut [u16])
    requires n_le_max_nodes { (n ≤ max_nodes) × (j < n) × (n ≤ length tree.now) × (n ≤ length marks.now) × Meets n j tree.now marks.now }
    requires count_value { (count ≡ length (marked_below marks.now j n)) × (count ≤ length rows.old) }
    ensures { rows.new ≡ written (marked_below marks.now j n) rows.old }
{
    // kept: the way up the tree goes from parent to parent, and ends by the number of rows written
    let mut k = j;
    let mut at: usize = 0;
    while at < count {
        k = tree[k as usize];
        at = put(k, j, marks, at, rows);
    }
}

// What the columns' rows are written from: a mesh in its order, its elimination tree, the children of each column in it, the greatest first, and where
// each column's rows start.
#[derive(Clone, Copy)]
struct Columns<'a, 'b, 'c> {
    ordered: OrderedMesh<'a>,
    tree: &'b [u16],
    first: &'c [u16],
    next: &'c [u16],
    column_starts: &'b [u32],
    ghost parents: { (ordered.mesh.nodes ≤ length tree.now) × Tree (as_lent ordered.mesh) ordered.order.now tree.now },
    ghost children: { Children ordered.mesh.nodes tree.now ordered.mesh.nodes first.now next.now },
    ghost starts: { take (ordered.mesh.nodes + 1) column_starts.now ≡ starts_of (columns (as_lent ordered.mesh) ordered.order.now) },
}

impl<'a, 'b, 'c> Columns<'a, 'b, 'c> {
    // The rows of the children of column j get the mark j. O(their rows).
    fn mark_children(&self, j: usize, rows: &[u16], marks: &mut [u16])
        requires inside { j < self.now.ordered.mesh.nodes }
        requires by_index { (c : ℕ) → c < self.now.ordered.mesh.nodes → get_or self.now.tree.now c 0 ≡ j → ListWithin self.now.column_starts.now rows.now c × ((i : ℕ) → is_in i (list_at self.now.column_starts.now rows.now c) ≡ true → i < length marks.old) }
        ensures { Marked j (child_row self.now.ordered.mesh.nodes self.now.tree.now self.now.column_starts.now rows.now j) marks.old marks.new }
    {
        // kept: the list of the children is followed from child to child, each column's next one at its own place: no slice that an iterator runs over
        let mut c = self.first[j];
        while c != NONE {
            mark_rows(list(self.column_starts, rows, c as usize), j as u16, marks);
            c = self.next[c as usize];
        }
    }

    // Column j: its later neighbours and the rows of its children, marked and written at the column's start.
    // O(degree + rows of the children + the way to the last row).
    fn add(&self, j: usize, marks: &mut [u16], rows: &mut [u16])
        requires inside { (j < self.now.ordered.mesh.nodes) × (length (flatten (columns (as_lent self.now.ordered.mesh) self.now.ordered.order.now)) ≤ length rows.old) }
        requires before { (self.now.ordered.mesh.nodes ≤ length marks.old) × Unmarked self.now.ordered.mesh.nodes j marks.old × (rows.old ≡ written (rows_before (as_lent self.now.ordered.mesh) self.now.ordered.order.now j) rows.old) }
        ensures { Unmarked self.now.ordered.mesh.nodes (j + 1) marks.new × (rows.new ≡ written (rows_before (as_lent self.now.ordered.mesh) self.now.ordered.order.now (j + 1)) rows.old) }
    {
        mark_neighbours(&self.ordered, j, marks);
        self.mark_children(j, rows, marks);
        let a = self.column_starts[j] as usize;
        let e = self.column_starts[j + 1] as usize;
        write_column(
            self.ordered.mesh.nodes,
            j as u16,
            e - a,
            self.tree,
            marks,
            &mut rows[a..],
        );
    }
}

// The rows of all columns. O(4,096 + slots + entries + the ways up the tree).
pub fn write_columns(
    mesh: &CheckedMesh,
    order: &[u16],
    positions: &[u16],
    tree: &[u16],
    column_starts: &[u32],
    rows: &mut [u16],
)
    requires ordered { Ordered (as_lent mesh.now) order.now positions.now × (mesh.now.nodes ≤ length tree.now) × Tree (as_lent mesh.now) order.now tree.now }
    requires column_starts_value { (take (mesh.now.nodes + 1) column_starts.now ≡ starts_of (columns (as_lent mesh.now) order.now)) × (length (flatten (columns (as_lent mesh.now) order.now)) ≤ length rows.old) }
    ensures { rows.new ≡ written (flatten (columns (as_lent mesh.now) order.now)) rows.old }
{
    let ordered = OrderedMesh {
        mesh: *mesh,
        order,
        positions,
    };
    let mut first = filled(NONE);
    let mut next = filled(NONE);
    let mut marks = filled(NONE);
    link_children(mesh.nodes, tree, &mut first, &mut next);
    let columns = Columns {
        ordered,
        tree,
        first: &first,
        next: &next,
        column_starts,
    };
    for j in 0..mesh.nodes {
        columns.add(j, &mut marks, rows);
    }
}
