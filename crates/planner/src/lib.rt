// Planning: from a lent mesh to its plan in lent buffers, or the first refusal.
#![tactic(auto)]

ghost use Rattle.std.specs.Prelude.{◌≡◌, false, ◌≤◌, ◌<◌, length, take, IfOk};
ghost use mathlib.Core.List.{map, flatten};
ghost use Rattle.plan.specs.Refusals.{fault_of, first_fault};
ghost use Rattle.plan.specs.Planning.{bad_unknowns, buffers_too_short, lengths, buffers, Planned};
ghost use Rattle.plan.specs.Lists.{written};
ghost use Rattle.plan.specs.Dissection.{positions as positions_of};
ghost use Rattle.plan.specs.Elimination.{columns, starts_of};
ghost use Rattle.theory.specs.Counting.{Order};
ghost use Rattle.mesh.specs.Lent.{lent_by, as_lent};
ghost use Rattle.layout.specs.Arrays.{Tree};
ghost use Rattle.planner.specs.Checked.{early_checks, FilledChecked};

use dissection::{dissect, write_order, write_parts};
use layout::{buffers_too_short, count_rows, invert, sum, write_columns, write_starts};
use mesh::{CheckedMesh, LentMesh, filled};
use plan::{Plan, Refusal};

// Checks 28, those of the mesh and 8, and the mesh that has passed them. O(n + 26 · entries).
#[tactic(auto, unfolding(plan::specs::Refusals::first_fault, plan::specs::Mesh::mesh_checks))]
fn check<'a>(
    unknowns: usize,
    mesh: &LentMesh<'a>,
    order: usize,
    positions: usize,
    sizes: usize,
    parents: usize,
    column_starts: usize,
) -> Result<CheckedMesh<'a>, Refusal>
    ensures fault { fault_of result ≡ first_fault (early_checks unknowns (lent_by mesh.now) (lengths order positions sizes parents column_starts 0)) }
    ensures passed { IfOk result (λ checked. as_lent checked ≡ lent_by mesh.now) }
{
    if Plan::bad_unknowns(unknowns) {
        return Err(Refusal::Unknowns);
    }
    let checked = mesh.check()?;
    if buffers_too_short(
        checked.nodes,
        order,
        positions,
        sizes,
        parents,
        column_starts,
    ) {
        return Err(Refusal::BuffersTooShort);
    }
    Ok(checked)
}

// The elimination tree and the column counts of an order. `inverse` has the positions, since the lent buffers are not written yet.
// O(4,096 + slots + entries).
fn count_columns(mesh: &CheckedMesh, nodes: &[u16], tree: &mut [u16], counts: &mut [u16])
    requires ordered { Order mesh.now.nodes nodes.now }
    requires n_in_bounds { (mesh.now.nodes ≤ length tree.old) × (mesh.now.nodes ≤ length counts.old) }
    ensures { (take mesh.now.nodes counts.new ≡ map length (columns (as_lent mesh.now) nodes.now)) × Tree (as_lent mesh.now) nodes.now tree.new }
{
    let mut inverse = filled(0);
    invert(nodes, &mut inverse);
    count_rows(mesh, nodes, &inverse, tree, counts);
}

// The layout of an order: positions, column starts and rows. O(4,096 + slots + entries + the ways up the elimination tree).
fn lay_out(
    mesh: &CheckedMesh,
    nodes: &[u16],
    tree: &[u16],
    counts: &[u16],
    positions: &mut [u16],
    column_starts: &mut [u32],
    rows: &mut [u16],
)
    requires ordered { Order mesh.now.nodes nodes.now × (mesh.now.nodes ≤ length tree.now) × Tree (as_lent mesh.now) nodes.now tree.now }
    requires n_in_bounds { (mesh.now.nodes ≤ length counts.now) × (take mesh.now.nodes counts.now ≡ map length (columns (as_lent mesh.now) nodes.now)) }
    requires n_in_bounds_2 { (mesh.now.nodes ≤ length positions.old) × (mesh.now.nodes < length column_starts.old) × (length (flatten (columns (as_lent mesh.now) nodes.now)) ≤ length rows.old) }
    ensures positions_after { positions.new ≡ written (positions_of mesh.now.nodes nodes.now) positions.old }
    ensures column_starts_after { column_starts.new ≡ written (starts_of (columns (as_lent mesh.now) nodes.now)) column_starts.old }
    ensures rows_after { rows.new ≡ written (flatten (columns (as_lent mesh.now) nodes.now)) rows.old }
{
    invert(nodes, positions);
    write_starts(mesh.nodes, counts, column_starts);
    write_columns(mesh, nodes, positions, tree, column_starts, rows);
}

// kept: the six lent buffers are parameters of their own, as C lends them, since clauses tell what each holds before and after.

// The plan of a mesh that has passed all checks before 9, or refusal 9 once the slots are counted. Nothing is written before. O(dissection + slots +
// entries + the ways up the elimination tree).
fn plan_checked(
    unknowns: usize,
    mesh: &CheckedMesh,
    order: &mut [u16],
    positions: &mut [u16],
    sizes: &mut [u16],
    parents: &mut [u16],
    column_starts: &mut [u32],
    rows: &mut [u16],
) -> Result<Plan, Refusal>
    requires long_enough { buffers_too_short mesh.now.nodes (lengths (length order.old) (length positions.old) (length sizes.old) (length parents.old) (length column_starts.old) 0) ≡ false }
    requires few_unknowns { bad_unknowns unknowns ≡ false }
    ensures { FilledChecked unknowns (as_lent mesh.now) result
        (buffers order.old positions.old sizes.old parents.old column_starts.old rows.old)
        (buffers order.new positions.new sizes.new parents.new column_starts.new rows.new) }
{
    let d = dissect(mesh);
    let nodes = &d.order[..mesh.nodes];
    let mut tree = filled(0);
    let mut counts = filled(0);
    count_columns(mesh, nodes, &mut tree, &mut counts);
    let totals = sum(mesh.nodes, &counts);
    let slots = totals.slots;
    if rows.len() < slots as usize {
        return Err(Refusal::RowsTooShort);
    }
    let count = d.parts;
    write_order(mesh.nodes, &d.order, order);
    write_parts(mesh.nodes, &d.heads, count, sizes, parents);
    lay_out(mesh, nodes, &tree, &counts, positions, column_starts, rows);
    Ok(Plan::new(
        mesh.nodes as u32,
        count as u32,
        slots,
        unknowns as u32,
        totals.multiplications,
    ))
}

// Planning: checks 28, 1 to 6, 26, 7, 8 and 9 in this order, then the plan in the lent buffers. O(n + 26 · entries + dissection + slots + the ways up
// the elimination tree).
pub fn plan(
    unknowns: usize,
    mesh: &LentMesh,
    order: &mut [u16],
    positions: &mut [u16],
    sizes: &mut [u16],
    parents: &mut [u16],
    column_starts: &mut [u32],
    rows: &mut [u16],
) -> Result<Plan, Refusal>
    ensures { Planned unknowns (lent_by mesh.now) result
        (buffers order.old positions.old sizes.old parents.old column_starts.old rows.old)
        (buffers order.new positions.new sizes.new parents.new column_starts.new rows.new) }
{
    let checked = check(
        unknowns,
        mesh,
        order.len(),
        positions.len(),
        sizes.len(),
        parents.len(),
        column_starts.len(),
    )?;
    plan_checked(
        unknowns,
        &checked,
        order,
        positions,
        sizes,
        parents,
        column_starts,
        rows,
    )
}
