// The entry points of the second library. Each does what the function of the same work does, under the same promise; what C is told is defined in
// specs/Replies.
ghost use Rattle.std.specs.Prelude.{◌≡◌};
ghost use Rattle.plan.specs.Planning.{contents};
ghost use Rattle.plan.specs.Factoring.{Factored};
ghost use Rattle.plan.specs.Solving.{Solved};
ghost use Rattle.plan.specs.Held.{held_question};
ghost use Rattle.ndfactor.specs.Replies.{ndf_report, factor_answer_of, ndf_held};

use crate::replies::{NdfHeld, NdfReport};
use factor::{factor, held_at, solve};
use planfile::LentPlan;

// kept: the C interface: names, flat parameters, buffers one by one and a refusal's number are as C calls them.

// Factoring, as factor::factor does it, at its cost.
#[unsafe(no_mangle)]
pub extern "C" fn ndf_factor(
    unknowns: usize,
    n: usize,
    p: usize,
    s: usize,
    order: &[u16],
    sizes: &[u16],
    parents: &[u16],
    column_starts: &[u32],
    rows: &[u16],
    diagonal: &mut [f64],
    values: &mut [f64],
) -> NdfReport
    ensures told { result ≡ ndf_report (factor_answer_of result) }
    ensures factored { Factored (contents unknowns n p s order.now sizes.now parents.now column_starts.now rows.now) (factor_answer_of result)
        (record { diagonal = diagonal.old; values = values.old })
        (record { diagonal = diagonal.new; values = values.new }) }
{
    let plan = LentPlan {
        unknowns,
        nodes: n,
        parts: p,
        slots: s,
        order,
        sizes,
        parents,
        column_starts,
        rows,
    };
    NdfReport::from(factor(&plan, diagonal, values))
}

// The solution, as factor::solve does it, at its cost.
#[unsafe(no_mangle)]
pub extern "C" fn ndf_solve(
    unknowns: usize,
    n: usize,
    p: usize,
    s: usize,
    order: &[u16],
    sizes: &[u16],
    parents: &[u16],
    column_starts: &[u32],
    rows: &[u16],
    diagonal: &[f64],
    values: &[f64],
    vector: &mut [f64],
) -> u32
    ensures { Solved (contents unknowns n p s order.now sizes.now parents.now column_starts.now rows.now)
        (record { diagonal = diagonal.now; values = values.now }) result vector.old vector.new }
{
    let plan = LentPlan {
        unknowns,
        nodes: n,
        parts: p,
        slots: s,
        order,
        sizes,
        parents,
        column_starts,
        rows,
    };
    match solve(&plan, diagonal, values, vector) {
        Ok(()) => 0,
        Err(refusal) => refusal.number(),
    }
}

// What the factor holds at a pair of positions, as factor::held_at tells it, at its cost.
#[unsafe(no_mangle)]
pub extern "C" fn ndf_held(
    n: usize,
    column_starts: &[u32],
    rows: &[u16],
    diagonal: &[f64],
    values: &[f64],
    a: usize,
    b: usize,
) -> NdfHeld
    ensures { result ≡ ndf_held (held_question n column_starts.now rows.now (record { diagonal = diagonal.now; values = values.now }) a b) }
{
    NdfHeld::from(held_at(n, column_starts, rows, diagonal, values, a, b))
}
