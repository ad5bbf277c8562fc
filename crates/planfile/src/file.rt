// A plan file that passed checks 10 to 14 and 28: its fields, and checks 15 to 19.
ghost use Rattle.std.specs.Prelude.{◌≡◌, ◌+◌, ◌*◌, ◌≤◌, length, take};
ghost use Rattle.plan.specs.Lists.{written};
ghost use Rattle.plan.specs.Refusals.{fault_of, first_fault};
ghost use Rattle.plan.specs.Mesh.{max_nodes};
ghost use Rattle.plan.specs.File.{parse, contents_checks};
ghost use Rattle.rowchecks.specs.Rows.{rows_in};
ghost use Rattle.planfile.specs.Filed.{Headed, row_counts_in};

use coding::read16s;
use filechecks::{Head, check_order_and_parts};
use layout::write_starts;
use mesh::filled;
use plan::{Plan, Refusal};
use rowchecks::{Encoded, check_rows};

// The bytes of such a file, and what the first of them say.
#[derive(Clone, Copy)]
pub(crate) struct HeadedFile<'a> {
    pub(crate) bytes: &'a [u8],
    pub(crate) head: Head,
    ghost headed: { Headed bytes.now head },
}

// A start for each column, and the last one's end, all zero. O(4,096).
fn zero_starts() -> [u32; Plan::NODES + 1]
    ensures { length result ≡ max_nodes + 1 }
{
    [0; Plan::NODES + 1]
}

impl<'a> HeadedFile<'a> {
    // The order, the sizes and the parents to the front of three buffers. O(n).
    pub(crate) fn read_order_and_parts(
        &self,
        order: &mut [u16],
        sizes: &mut [u16],
        parents: &mut [u16],
    )
        requires { (self.now.head.nodes ≤ length order.old) × (self.now.head.nodes ≤ length sizes.old) × (self.now.head.nodes ≤ length parents.old) }
        ensures { (order.new ≡ written (parse self.now.bytes.now).order order.old) × (sizes.new ≡ written (parse self.now.bytes.now).sizes sizes.old) × (parents.new ≡ written (parse self.now.bytes.now).parents parents.old) }
    {
        let parts_at = self.head.end + 2 * self.head.nodes;
        read16s(self.bytes, self.head.end, 2, self.head.nodes, order);
        read16s(self.bytes, parts_at, 4, self.head.parts, sizes);
        read16s(self.bytes, parts_at + 2, 4, self.head.parts, parents);
    }

    // The row counts to the front of a buffer. O(n).
    pub(crate) fn read_row_counts(&self, counts: &mut [u16])
        requires { self.now.head.nodes ≤ length counts.old }
        ensures { counts.new ≡ written (row_counts_in self.now.bytes.now) counts.old }
    {
        let at = self.head.end + 2 * self.head.nodes + 4 * self.head.parts;
        read16s(self.bytes, at, 2, self.head.nodes, counts);
    }

    // Where the rows begin. O(1).
    fn rows_at(&self) -> usize
        ensures { result ≡ self.now.head.end + 4 * self.now.head.nodes + 4 * self.now.head.parts }
    {
        self.head.end + 4 * self.head.nodes + 4 * self.head.parts
    }

    // The rows, as they stand in the bytes. O(1).
    fn rows(&self) -> Encoded<'a>
        ensures { rows_in result.0.now ≡ (parse self.now.bytes.now).rows }
    {
        let at = self.rows_at();
        Encoded(&self.bytes[at..])
    }

    // The rows to the front of a buffer. O(slots).
    pub(crate) fn read_rows(&self, rows: &mut [u16])
        requires { self.now.head.slots ≤ length rows.old }
        ensures { rows.new ≡ written (parse self.now.bytes.now).rows rows.old }
    {
        read16s(self.bytes, self.rows_at(), 2, self.head.slots, rows);
    }

    // Checks 15 to 19 of its fields, of which all but the rows were read. O(4,096 + slots + the first rows' columns).
    fn check_fields(
        &self,
        order: &[u16],
        sizes: &[u16],
        parents: &[u16],
        column_starts: &[u32],
    ) -> Result<(), Refusal>
        requires { (order.now ≡ (parse self.now.bytes.now).order) × (sizes.now ≡ (parse self.now.bytes.now).sizes) × (parents.now ≡ (parse self.now.bytes.now).parents) × (column_starts.now ≡ (parse self.now.bytes.now).column_starts) }
        ensures { fault_of result ≡ first_fault (contents_checks (parse self.now.bytes.now)) }
    {
        check_order_and_parts(order, sizes, parents)?;
        if column_starts[self.head.nodes] as usize != self.head.slots {
            return Err(Refusal::Rows);
        }
        check_rows(self.head.nodes, sizes, parents, column_starts, self.rows())
    }

    // Checks 15 to 19: the fields but the rows are read into working memory. O(4,096 + slots + the first rows' columns).
    pub(crate) fn check(&self, counts: &[u16]) -> Result<(), Refusal>
        requires { (self.now.head.nodes ≤ length counts.now) × (take self.now.head.nodes counts.now ≡ row_counts_in self.now.bytes.now) }
        ensures { fault_of result ≡ first_fault (contents_checks (parse self.now.bytes.now)) }
    {
        let n = self.head.nodes;
        let p = self.head.parts;
        let mut order = filled(0);
        let mut sizes = filled(0);
        let mut parents = filled(0);
        let mut column_starts = zero_starts();
        self.read_order_and_parts(&mut order, &mut sizes, &mut parents);
        write_starts(n, counts, &mut column_starts);
        let order_all = &order[..];
        let sizes_all = &sizes[..];
        let parents_all = &parents[..];
        let starts_all = &column_starts[..];
        let starts = n + 1;
        self.check_fields(
            &order_all[..n],
            &sizes_all[..p],
            &parents_all[..p],
            &starts_all[..starts],
        )
    }
}
