// The entry points. Each does what the function of the same work does, under the same promise; what C is told is defined in specs/Replies.
ghost use Rattle.std.specs.Prelude.{◌≡◌};
ghost use Rattle.plan.specs.Answers.{plan_reply, write_reply, mesh_reply};
ghost use Rattle.plan.specs.Refusals.{family_of};
ghost use Rattle.plan.specs.Mesh.{lent};
ghost use Rattle.plan.specs.Planning.{contents, buffers, capacity, Filled, Planned};
ghost use Rattle.plan.specs.Reading.{reading};
ghost use Rattle.plan.specs.Writing.{Wrote};
ghost use Rattle.plan.specs.Questions.{pair_question, column_refusal, column_span, slot_question};
ghost use Rattle.plan.specs.MadeMesh.{mesh_buffers};
ghost use Rattle.plan.specs.MatrixMarket.{TextRead};
ghost use Rattle.plan.specs.Joining.{pairing, MeshesJoined};
ghost use Rattle.ndplan.specs.Replies.{plan_answer_of, write_answer_of, mesh_answer_of, ndp_plan, ndp_written, ndp_slot, ndp_rows, ndp_pair, ndp_mesh, family_number};

use crate::replies::{NdpMesh, NdpPair, NdpPlan, NdpRows, NdpSlot, NdpWritten, family_number};
use join::{Pairing, join};
use layout::{column_refusal, pair_of_slot, slot_of_pair};
use mesh::LentMesh;
use plan::family;
use planfile::{LentPlan, read, write};
use planner::plan;

// kept: the C interface: names, flat parameters and buffers one by one are as C calls them.

// Planning, as planner::plan does it, at its cost.
#[unsafe(no_mangle)]
pub extern "C" fn ndp_plan(
    unknowns: usize,
    n: usize,
    starts: &[u32],
    neighbours: &[u16],
    order: &mut [u16],
    positions: &mut [u16],
    sizes: &mut [u16],
    parents: &mut [u16],
    column_starts: &mut [u32],
    rows: &mut [u16],
) -> NdpPlan
    ensures { Planned unknowns (lent n starts.now neighbours.now) (plan_answer_of result)
        (buffers order.old positions.old sizes.old parents.old column_starts.old rows.old)
        (buffers order.new positions.new sizes.new parents.new column_starts.new rows.new)
        × (result ≡ ndp_plan (plan_reply (plan_answer_of result))) }
{
    let mesh = LentMesh {
        nodes: n,
        starts,
        neighbours,
    };
    plan(
        unknowns,
        &mesh,
        order,
        positions,
        sizes,
        parents,
        column_starts,
        rows,
    )
    .into()
}

// Reading, as planfile::read does it, at its cost.
#[unsafe(no_mangle)]
pub extern "C" fn ndp_read(
    file: &[u8],
    order: &mut [u16],
    positions: &mut [u16],
    sizes: &mut [u16],
    parents: &mut [u16],
    column_starts: &mut [u32],
    rows: &mut [u16],
) -> NdpPlan
    ensures { Filled (reading file.now (capacity (buffers order.old positions.old sizes.old parents.old column_starts.old rows.old))) (plan_answer_of result)
        (buffers order.old positions.old sizes.old parents.old column_starts.old rows.old)
        (buffers order.new positions.new sizes.new parents.new column_starts.new rows.new)
        × (result ≡ ndp_plan (plan_reply (plan_answer_of result))) }
{
    read(file, order, positions, sizes, parents, column_starts, rows).into()
}

// Writing, as planfile::write does it, at its cost.
#[unsafe(no_mangle)]
pub extern "C" fn ndp_write(
    unknowns: usize,
    n: usize,
    p: usize,
    s: usize,
    order: &[u16],
    sizes: &[u16],
    parents: &[u16],
    column_starts: &[u32],
    rows: &[u16],
    file: &mut [u8],
) -> NdpWritten
    ensures { Wrote (contents unknowns n p s order.now sizes.now parents.now column_starts.now rows.now) (write_answer_of result) file.old file.new
        × (result ≡ ndp_written (write_reply (write_answer_of result))) }
{
    let plan = LentPlan {
        unknowns,
        nodes: n,
        parts: p,
        slots: s,
        order,
        sizes,
        parents,
        column_starts,
        rows,
    };
    write(&plan, file).into()
}

// The first question, as layout::slot_of_pair answers it. O(n + slots).
#[unsafe(no_mangle)]
pub extern "C" fn ndp_slot(
    n: usize,
    column_starts: &[u32],
    rows: &[u16],
    a: usize,
    b: usize,
) -> NdpSlot
    ensures { result ≡ ndp_slot (pair_question n column_starts.now rows.now a b) }
{
    slot_of_pair(n, column_starts, rows, a, b).into()
}

// The second question and its companion, over one look at the layout. O(n + slots).
#[unsafe(no_mangle)]
pub extern "C" fn ndp_rows(n: usize, column_starts: &[u32], rows: &[u16], j: usize) -> NdpRows
    ensures { result ≡ ndp_rows (column_refusal n column_starts.now rows.now j) (column_span n column_starts.now rows.now j) }
{
    match column_refusal(n, column_starts, rows, j) {
        Ok(()) => NdpRows {
            refusal: 0,
            start: column_starts[j],
            count: column_starts[j + 1] - column_starts[j],
        },
        Err(refusal) => NdpRows {
            refusal: refusal.number(),
            ..NdpRows::default()
        },
    }
}

// The question about a slot, as layout::pair_of_slot answers it. O(n + slots).
#[unsafe(no_mangle)]
pub extern "C" fn ndp_pair(n: usize, column_starts: &[u32], rows: &[u16], slot: usize) -> NdpPair
    ensures { result ≡ ndp_pair (slot_question n column_starts.now rows.now slot) }
{
    pair_of_slot(n, column_starts, rows, slot).into()
}

// Reading a Matrix Market text, as matrix_market::read does it, at its cost.
#[unsafe(no_mangle)]
pub extern "C" fn ndp_matrix_market(
    text: &[u8],
    starts: &mut [u32],
    neighbours: &mut [u16],
) -> NdpMesh
    ensures { TextRead text.now (mesh_answer_of result) (mesh_buffers starts.old neighbours.old) (mesh_buffers starts.new neighbours.new)
        × (result ≡ ndp_mesh (mesh_reply (mesh_answer_of result))) }
{
    matrix_market::read(text, starts, neighbours).into()
}

// Joining two meshes, as join::join does it, at its cost.
#[unsafe(no_mangle)]
pub extern "C" fn ndp_join(
    n1: usize,
    starts1: &[u32],
    neighbours1: &[u16],
    n2: usize,
    starts2: &[u32],
    neighbours2: &[u16],
    first: &[u16],
    second: &[u16],
    starts: &mut [u32],
    neighbours: &mut [u16],
) -> NdpMesh
    ensures { MeshesJoined (lent n1 starts1.now neighbours1.now) (lent n2 starts2.now neighbours2.now) (pairing first.now second.now) (mesh_answer_of result)
        (mesh_buffers starts.old neighbours.old) (mesh_buffers starts.new neighbours.new)
        × (result ≡ ndp_mesh (mesh_reply (mesh_answer_of result))) }
{
    let one = LentMesh {
        nodes: n1,
        starts: starts1,
        neighbours: neighbours1,
    };
    let other = LentMesh {
        nodes: n2,
        starts: starts2,
        neighbours: neighbours2,
    };
    let pairs = Pairing { first, second };
    join(&one, &other, &pairs, starts, neighbours).into()
}

// The family of a refusal's number, as plan::family tells it. O(1).
#[unsafe(no_mangle)]
pub extern "C" fn ndp_family(number: u32) -> u32
    ensures { result ≡ family_number (family_of number) }
{
    family_number(family(number))
}
