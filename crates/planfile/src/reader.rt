// Reading a plan file of version 1 or 2: checks 10 to 14 with 28, 15 to 19, then 8 and 9, then the plan in the lent buffers. Until all checks are passed
// only working memory is written.
ghost use Rattle.std.specs.Prelude.{◌≡◌, ◌≤◌, length, take};
ghost use Rattle.plan.specs.Refusals.{first_fault};
ghost use Rattle.plan.specs.Mesh.{max_nodes};
ghost use Rattle.plan.specs.Planning.{buffers, capacity, Filled};
ghost use Rattle.plan.specs.File.{parse, contents_checks};
ghost use Rattle.plan.specs.Reading.{reading};
ghost use Rattle.planfile.specs.Filed.{row_counts_in};

use crate::file::HeadedFile;
use filechecks::check_head;
use layout::{buffers_too_short, invert, sum, write_starts};
use mesh::filled;
use plan::{Plan, Refusal};

// kept: the six lent buffers are parameters of their own, since clauses tell what each holds before and after, which a struct of them would only hide.

// Reading where checks 10 to 19 found no fault: 8 and 9, then the plan in the lent buffers, and its counts. O(n + slots).
fn read_checked(
    file: &HeadedFile,
    counts: &[u16],
    order: &mut [u16],
    positions: &mut [u16],
    sizes: &mut [u16],
    parents: &mut [u16],
    column_starts: &mut [u32],
    rows: &mut [u16],
) -> Result<Plan, Refusal>
    requires counted { (file.now.head.nodes ≤ length counts.now) × (take file.now.head.nodes counts.now ≡ row_counts_in file.now.bytes.now) }
    requires passed { 0 ≡ first_fault (contents_checks (parse file.now.bytes.now)) }
    ensures { Filled (reading file.now.bytes.now (capacity (buffers order.old positions.old sizes.old parents.old column_starts.old rows.old))) result
        (buffers order.old positions.old sizes.old parents.old column_starts.old rows.old)
        (buffers order.new positions.new sizes.new parents.new column_starts.new rows.new) }
{
    let n = file.head.nodes;
    if buffers_too_short(
        n,
        order.len(),
        positions.len(),
        sizes.len(),
        parents.len(),
        column_starts.len(),
    ) {
        return Err(Refusal::BuffersTooShort);
    }
    if rows.len() < file.head.slots {
        return Err(Refusal::RowsTooShort);
    }
    file.read_order_and_parts(order, sizes, parents);
    invert(&order[..n], positions);
    write_starts(n, counts, column_starts);
    file.read_rows(rows);
    let totals = sum(n, counts);
    Ok(Plan::new(
        n as u32,
        file.head.parts as u32,
        file.head.slots as u32,
        file.head.unknowns as u32,
        totals.multiplications,
    ))
}

// Reading where checks 10 to 14 and 28 found no fault: 15 to 19, then what is left; the row counts are read into working memory. O(4,096 + slots + the
// first rows' columns).
fn read_headed(
    file: &HeadedFile,
    counts: &mut [u16],
    order: &mut [u16],
    positions: &mut [u16],
    sizes: &mut [u16],
    parents: &mut [u16],
    column_starts: &mut [u32],
    rows: &mut [u16],
) -> Result<Plan, Refusal>
    requires { max_nodes ≤ length counts.old }
    ensures { Filled (reading file.now.bytes.now (capacity (buffers order.old positions.old sizes.old parents.old column_starts.old rows.old))) result
        (buffers order.old positions.old sizes.old parents.old column_starts.old rows.old)
        (buffers order.new positions.new sizes.new parents.new column_starts.new rows.new) }
{
    file.read_row_counts(counts);
    file.check(counts)?;
    read_checked(
        file,
        counts,
        order,
        positions,
        sizes,
        parents,
        column_starts,
        rows,
    )
}

// Reading: checks 10 to 12, 10 again, 28, 13 to 19, 8 and 9 in this order, then the plan in the lent buffers; the multiplications are counted anew.
// O(4,096 + slots + the first rows' columns).
#[tactic(auto, using(crate::proofs::Reading::header_refused))]
pub fn read(
    bytes: &[u8],
    order: &mut [u16],
    positions: &mut [u16],
    sizes: &mut [u16],
    parents: &mut [u16],
    column_starts: &mut [u32],
    rows: &mut [u16],
) -> Result<Plan, Refusal>
    ensures { Filled (reading bytes.now (capacity (buffers order.old positions.old sizes.old parents.old column_starts.old rows.old))) result
        (buffers order.old positions.old sizes.old parents.old column_starts.old rows.old)
        (buffers order.new positions.new sizes.new parents.new column_starts.new rows.new) }
{
    // Before the first check, so that the stack frame is made while no register holds anything: the back end has a fault there (DECISIONS 139).
    let mut counts = filled(0);
    let head = check_head(bytes)?;
    read_headed(
        &HeadedFile { bytes, head },
        &mut counts,
        order,
        positions,
        sizes,
        parents,
        column_starts,
        rows,
    )
}
