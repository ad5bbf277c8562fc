// Factoring, whole: checks 28, 13 and 15 to 19 as the writer makes them, 29 and 30, then the columns.
ghost use Rattle.std.specs.Prelude.{◌≡◌};
ghost use Rattle.plan.specs.Refusals.{fault_of, first_fault};
ghost use Rattle.plan.specs.Factoring.{bad_filling, factor_checks, Factored};
ghost use Rattle.planfile.specs.LentPlans.{contents_of};

use crate::columns::factor_columns;
use crate::table::Columns;
use plan::{Refusal, Report};
use planfile::LentPlan;

// Check 30: a value buffer has another length than needed. O(1).
#[tactic(auto, unfolding(plan::specs::Factoring::bad_filling))]
pub(crate) fn bad_filling(n: usize, s: usize, diagonal: &[f64], values: &[f64]) -> bool
    ensures { result ≡ bad_filling n s (record { diagonal = diagonal.now; values = values.now }) }
{
    diagonal.len() != n || values.len() != s
}

// The checks before the first column: 28, 13, 15 to 19, 29 and 30. O(4,096 + slots + the first rows' columns).
#[tactic(auto, using(crate::proofs::Checks::plan_refused, crate::proofs::Checks::plan_passed), unfolding(plan::specs::Refusals::first_fault, plan::specs::Factoring::many_unknowns))]
pub(crate) fn check(plan: &LentPlan, diagonal: &[f64], values: &[f64]) -> Result<(), Refusal>
    ensures { fault_of result ≡ first_fault (factor_checks (contents_of plan.now) (record { diagonal = diagonal.now; values = values.now })) }
{
    plan.check()?;
    if plan.unknowns > 1 {
        return Err(Refusal::ManyUnknowns);
    }
    if bad_filling(plan.nodes, plan.slots, diagonal, values) {
        return Err(Refusal::ValueCount);
    }
    Ok(())
}

// Factoring: checks 28, 13, 15 to 19, 29 and 30 in this order, then the columns in both buffers, up to the first pivot that is refused (31).
// O(4,096 + multiplications + rows of the columns of all rows).
#[tactic(auto, using(crate::proofs::Checks::factor_refused))]
pub fn factor(plan: &LentPlan, diagonal: &mut [f64], values: &mut [f64]) -> Result<Report, Refusal>
    ensures { Factored (contents_of plan.now) result
        (record { diagonal = diagonal.old; values = values.old })
        (record { diagonal = diagonal.new; values = values.new }) }
{
    check(plan, diagonal, values)?;
    let end = plan.nodes + 1;
    let columns = Columns {
        starts: &plan.column_starts[..end],
        rows: &plan.rows[..plan.slots],
    };
    factor_columns(&columns, diagonal, values)
}
