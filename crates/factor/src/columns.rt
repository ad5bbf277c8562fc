// All columns in ascending order, up to the first pivot that is refused.
ghost use Rattle.std.specs.Prelude.{◌≡◌, ◌+◌, ◌-◌, ◌*◌, ◌/◌, ◌≤◌, ◌<◌, length, get_or};
ghost use Rattle.std.specs.Float.Ieee.Positive.{positive};
ghost use Rattle.plan.specs.Mesh.{max_nodes};
ghost use Rattle.plan.specs.Factoring.{column_operations, open_report, factor_from};
ghost use Rattle.factor.specs.Working.{Lent, Reached};

use crate::column::factor_column;
use crate::table::Columns;
use plan::{Plan, Refusal, Report};

// Whether d is both finite and above zero. O(1).
pub(crate) fn is_pivot(d: f64) -> bool
    ensures { result ≡ positive d }
{
    0.0 < d && d < f64::INFINITY
}

// The multiplications and divisions of a column of c rows. O(1).
fn work(c: usize) -> u64
    requires { c ≤ max_nodes }
    ensures { result ≡ c * (c + 3) / 2 }
{
    (c * (c + 3) / 2) as u64
}

// The multiplications and divisions of column j. O(1).
fn operations(columns: &Columns, j: usize) -> u64
    requires { (j + 1 < length columns.now.starts.now) × (get_or columns.now.starts.now j 0 ≤ get_or columns.now.starts.now (j + 1) 0) × (get_or columns.now.starts.now (j + 1) 0 - get_or columns.now.starts.now j 0 ≤ max_nodes) }
    ensures { result ≡ column_operations columns.now.starts.now j }
{
    work(columns.starts[j + 1] as usize - columns.starts[j] as usize)
}

// The columns, with the report after each. O(4,096 + multiplications + rows of the columns that are run down).
pub(crate) fn factor_columns(
    columns: &Columns,
    diagonal: &mut [f64],
    values: &mut [f64],
) -> Result<Report, Refusal>
    requires { Lent columns.now.starts.now columns.now.rows.now diagonal.old values.old }
    ensures { Reached (factor_from columns.now.starts.now columns.now.rows.now 0 (length diagonal.old) open_report
        (record { diagonal = diagonal.old; values = values.old })) result diagonal.new values.new }
{
    let mut kept = [0.0; Plan::NODES];
    let mut lower = [0.0; Plan::NODES];
    let mut places = [0; Plan::NODES];
    let mut report = Report::open();
    for j in 0..diagonal.len() {
        let d = diagonal[j];
        if !is_pivot(d) {
            return Err(Refusal::Pivot);
        }
        factor_column(
            columns,
            diagonal,
            values,
            &mut kept,
            &mut lower,
            &mut places,
            j,
            d,
        );
        report = report.after(d, operations(columns, j));
    }
    Ok(report)
}
