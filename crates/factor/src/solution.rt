// The solution, whole: the checks of factoring up to 30, the vector's length, 31 for every pivot, then the three passes.
ghost use Rattle.std.specs.Prelude.{◌≡◌};
ghost use Rattle.plan.specs.Refusals.{fault_of, first_fault};
ghost use Rattle.plan.specs.Solving.{bad_pivot, solve_checks, Solved};
ghost use Rattle.planfile.specs.LentPlans.{contents_of};

use crate::columns::is_pivot;
use crate::entry::check;
use crate::passes::{backward_columns, forward_columns, scale};
use crate::table::{Columns, FilledColumns};
use plan::Refusal;
use planfile::LentPlan;

// Check 31: a pivot is not both finite and above zero. O(n).
#[tactic(auto, unfolding(plan::specs::Solving::bad_pivot))]
fn bad_pivot(pivots: &[f64]) -> bool
    ensures { result ≡ bad_pivot pivots.now }
{
    pivots.iter().any(|d| !is_pivot(*d))
}

// The checks before the passes: those of factoring, the vector's length, and the pivots. O(4,096 + slots + the first rows' columns).
#[tactic(auto, using(crate::proofs::SolveChecks::factor_refused_first, crate::proofs::SolveChecks::factor_passed_first), unfolding(plan::specs::Refusals::first_fault, plan::specs::Solving::bad_vector))]
fn check_all(
    plan: &LentPlan,
    diagonal: &[f64],
    values: &[f64],
    vector: &[f64],
) -> Result<(), Refusal>
    ensures { fault_of result ≡ first_fault (solve_checks (contents_of plan.now) (record { diagonal = diagonal.now; values = values.now }) vector.now) }
{
    check(plan, diagonal, values)?;
    if vector.len() != plan.nodes {
        return Err(Refusal::ValueCount);
    }
    if bad_pivot(diagonal) {
        return Err(Refusal::Pivot);
    }
    Ok(())
}

// The solution in the vector: checks 28, 13, 15 to 19, 29, 30 and 31 in this order, then forward, division by the pivots and backward.
// O(4,096 + slots + the first rows' columns).
pub fn solve(
    plan: &LentPlan,
    diagonal: &[f64],
    values: &[f64],
    vector: &mut [f64],
) -> Result<(), Refusal>
    ensures { Solved (contents_of plan.now) (record { diagonal = diagonal.now; values = values.now }) (fault_of result) vector.old vector.new }
{
    check_all(plan, diagonal, values, vector)?;
    let end = plan.nodes + 1;
    let filled = FilledColumns {
        nodes: plan.nodes,
        columns: Columns {
            starts: &plan.column_starts[..end],
            rows: &plan.rows[..plan.slots],
        },
        values,
    };
    forward_columns(&filled, vector);
    scale(diagonal, vector);
    backward_columns(&filled, vector);
    Ok(())
}
