// A plan in lent slices and its checks, 28, 13 and 15 to 19: the writer's, and of what factors a plan.
ghost use Rattle.std.specs.Prelude.{◌≡◌, false, length};
ghost use Rattle.plan.specs.Refusals.{fault_of, first_fault};
ghost use Rattle.plan.specs.Planning.{contents};
ghost use Rattle.plan.specs.File.{contents_checks};
ghost use Rattle.plan.specs.Writing.{bad_supply, used, supplied_checks};
ghost use Rattle.planfile.specs.Supplied.{listed, Exact};

use filechecks::{bad_header, check_order_and_parts};
use mesh::bad_starts;
use plan::{Plan, Refusal};
use rowchecks::{Lent, check_rows};

// A plan as lent: its counts and its lists, of which nothing is known yet; a list may be longer than its count says.
// kept: the counts stand beside the lists, since C lends both, and check 13 compares them.
#[derive(Clone, Copy)]
pub struct LentPlan<'a> {
    pub unknowns: usize,
    pub nodes: usize,
    pub parts: usize,
    pub slots: usize,
    pub order: &'a [u16],
    pub sizes: &'a [u16],
    pub parents: &'a [u16],
    pub column_starts: &'a [u32],
    pub rows: &'a [u16],
}

// The entries of such a plan that its counts name, behind check 13: each list is as long as its count says.
#[derive(Clone, Copy)]
pub(crate) struct UsedPlan<'a> {
    pub(crate) unknowns: usize,
    pub(crate) nodes: usize,
    pub(crate) order: &'a [u16],
    pub(crate) sizes: &'a [u16],
    pub(crate) parents: &'a [u16],
    pub(crate) column_starts: &'a [u32],
    pub(crate) rows: &'a [u16],
    ghost exact: { Exact (contents unknowns nodes (length sizes.now) (length rows.now) order.now sizes.now parents.now column_starts.now rows.now) },
}

impl<'a> UsedPlan<'a> {
    ghost use Rattle.planfile.specs.LentPlans.{used_by};

    // Checks 15 to 19, which do not look at the unknowns: they find what they would find in the plan of these counts and lists alone.
    // O(4,096 + slots + the first rows' columns).
    fn check(&self) -> Result<(), Refusal>
        ensures fault { fault_of result ≡ first_fault (contents_checks (used_by self.now)) }
        ensures unnumbered { fault_of result ≡ first_fault (contents_checks (listed self.now.nodes (length self.now.sizes.now) (length self.now.rows.now)
            self.now.order.now self.now.sizes.now self.now.parents.now self.now.column_starts.now self.now.rows.now)) }
    {
        check_order_and_parts(self.order, self.sizes, self.parents)?;
        if bad_starts(self.nodes, self.column_starts) {
            return Err(Refusal::Rows);
        }
        if self.column_starts[self.nodes] as usize != self.rows.len() {
            return Err(Refusal::Rows);
        }
        check_rows(
            self.nodes,
            self.sizes,
            self.parents,
            self.column_starts,
            Lent(self.rows),
        )
    }
}

impl<'a> LentPlan<'a> {
    ghost use Rattle.planfile.specs.LentPlans.{contents_of, used_by};

    // Check 13: the counts are out of their limits, or a list is shorter than its count says. O(1).
    #[tactic(auto, unfolding(plan::specs::Writing::bad_supply, plan::specs::File::bad_header))]
    fn bad_supply(&self) -> bool
        ensures { result ≡ bad_supply (contents_of self.now) }
    {
        if bad_header(self.nodes, self.parts, self.slots) {
            return true;
        }
        if self.order.len() < self.nodes {
            return true;
        }
        if self.sizes.len() < self.parts {
            return true;
        }
        if self.parents.len() < self.parts {
            return true;
        }
        if self.column_starts.len() <= self.nodes {
            return true;
        }
        self.rows.len() < self.slots
    }

    // The entries that the counts name. O(1).
    pub(crate) fn used(&self) -> UsedPlan<'a>
        requires { bad_supply (contents_of self.now) ≡ false }
        ensures { used_by result ≡ used (contents_of self.now) }
    {
        let starts = self.nodes + 1;
        UsedPlan {
            unknowns: self.unknowns,
            nodes: self.nodes,
            order: &self.order[..self.nodes],
            sizes: &self.sizes[..self.parts],
            parents: &self.parents[..self.parts],
            column_starts: &self.column_starts[..starts],
            rows: &self.rows[..self.slots],
        }
    }

    // Checks 28, 13 and 15 to 19. O(4,096 + slots + the first rows' columns).
    #[tactic(auto, unfolding(plan::specs::Refusals::first_fault, plan::specs::Writing::supplied_checks))]
    pub fn check(&self) -> Result<(), Refusal>
        ensures { fault_of result ≡ first_fault (supplied_checks (contents_of self.now)) }
    {
        if Plan::bad_unknowns(self.unknowns) {
            return Err(Refusal::Unknowns);
        }
        if self.bad_supply() {
            return Err(Refusal::Header);
        }
        self.used().check()
    }
}
