// Writing a plan file, of version 2, from lent slices: checks 28, 13 and 15 to 19, then 8, then the bytes.
ghost use Rattle.std.specs.Prelude.{◌≡◌, false, [], ◌+◌, ◌*◌, ◌≤◌, ◌<◌, length};
ghost use Rattle.plan.specs.Lists.{written};
ghost use Rattle.plan.specs.Planning.{row_counts, bad_unknowns};
ghost use Rattle.plan.specs.File.{file_length, encode, encode_parts, encode16s};
ghost use Rattle.plan.specs.Writing.{Wrote};
ghost use Rattle.filechecks.specs.Fields.{order_and_parts};
ghost use Rattle.rowchecks.specs.Rows.{parts_and_rows};
ghost use Rattle.planfile.specs.Supplied.{NarrowColumns};
ghost use Rattle.planfile.specs.LentPlans.{contents_of, used_by};
ghost use Rattle.planfile.specs.Filed.{header_of};

use crate::lent::{LentPlan, UsedPlan};
use coding::{write16, write16s, write32};
use filechecks::{HEADER, MAGIC, VERSION, file_length};
use plan::Refusal;

// The mark, the version, the unknowns and the counts. O(1).
fn write_header(plan: &UsedPlan, bytes: &mut [u8])
    requires { (bad_unknowns plan.now.unknowns ≡ false) × (19 ≤ length bytes.old) }
    ensures { bytes.new ≡ written (header_of plan.now.unknowns plan.now.nodes (length plan.now.sizes.now) (length plan.now.rows.now)) bytes.old }
{
    bytes[..3].copy_from_slice(&MAGIC);
    write16(VERSION, &mut bytes[3..]);
    write16(plan.unknowns as u16, &mut bytes[5..]);
    write32(plan.nodes as u32, &mut bytes[7..]);
    write32(plan.sizes.len() as u32, &mut bytes[11..]);
    write32(plan.rows.len() as u32, &mut bytes[15..]);
}

// The size and the parent of each part. O(p).
fn write_parts(sizes: &[u16], parents: &[u16], bytes: &mut [u8])
    requires { (length parents.now ≡ length sizes.now) × (4 * length sizes.now ≤ length bytes.old) }
    ensures { bytes.new ≡ written (encode_parts (order_and_parts 0 [] sizes.now parents.now)) bytes.old }
{
    for q in 0..sizes.len() {
        let at = 4 * q;
        let behind = at + 2;
        write16(sizes[q], &mut bytes[at..]);
        write16(parents[q], &mut bytes[behind..]);
    }
}

// The row count of each column. O(n).
fn write_row_counts(n: usize, column_starts: &[u32], bytes: &mut [u8])
    requires { (length column_starts.now ≡ n + 1) × NarrowColumns n column_starts.now × (2 * n ≤ length bytes.old) }
    ensures { bytes.new ≡ written (encode16s (row_counts (parts_and_rows n [] [] column_starts.now []))) bytes.old }
{
    for j in 0..n {
        let at = 2 * j;
        let count = column_starts[j + 1] - column_starts[j];
        write16(count as u16, &mut bytes[at..]);
    }
}

// The bytes of a plan that passed its checks. O(n + slots).
fn write_plan(plan: &UsedPlan, bytes: &mut [u8])
    requires passed { (bad_unknowns plan.now.unknowns ≡ false) × NarrowColumns plan.now.nodes plan.now.column_starts.now }
    requires room { file_length (used_by plan.now) ≤ length bytes.old }
    ensures { bytes.new ≡ written (encode (used_by plan.now)) bytes.old }
{
    let parts_at = HEADER + 2 * plan.nodes;
    let counts_at = parts_at + 4 * plan.sizes.len();
    let rows_at = counts_at + 2 * plan.nodes;
    write_header(plan, bytes);
    write16s(plan.order, &mut bytes[HEADER..]);
    write_parts(plan.sizes, plan.parents, &mut bytes[parts_at..]);
    write_row_counts(plan.nodes, plan.column_starts, &mut bytes[counts_at..]);
    write16s(plan.rows, &mut bytes[rows_at..]);
}

// Writing: checks 28, 13, 15 to 19 and 8 in this order, then the bytes, and the file's length is returned; lists may be longer than their counts say.
// O(4,096 + slots + the first rows' columns).
#[tactic(auto, using(crate::proofs::WriteAnswers::refused_supplied))]
pub fn write(plan: &LentPlan, bytes: &mut [u8]) -> Result<usize, Refusal>
    ensures { Wrote (contents_of plan.now) result bytes.old bytes.new }
{
    plan.check()?;
    let length = file_length(HEADER, plan.nodes, plan.parts, plan.slots);
    if bytes.len() < length {
        return Err(Refusal::BuffersTooShort);
    }
    write_plan(&plan.used(), bytes);
    Ok(length)
}
