// Checks 15 and 16: the order is each node once, and sizes and parents make a tree of parts.
ghost use Rattle.std.specs.Prelude.{◌≡◌, not, [], ◌≤◌, length, get_or, sum};
ghost use Rattle.plan.specs.Lists.{exists, below, each_once};
ghost use Rattle.plan.specs.Refusals.{fault_of, first_fault};
ghost use Rattle.plan.specs.Mesh.{max_nodes};
ghost use Rattle.plan.specs.File.{may_be_parent, bad_parts};
ghost use Rattle.filechecks.specs.Fields.{order_and_parts, order_and_parts_checks};

use mesh::{contains, filled};
use plan::{Plan, Refusal};

// Check 15: the order is not each node once, as many nodes as it is long. O(4,096 + n).
fn bad_order(order: &[u16]) -> bool
    requires { length order.now ≤ max_nodes }
    ensures { result ≡ not (each_once (length order.now) order.now) }
{
    let mut marks = filled(0);
    for &node in order {
        let v = node as usize;
        if v >= order.len() {
            return true;
        }
        if marks[v] == 1 {
            return true;
        }
        marks[v] = 1;
    }
    false
}

// The sum of some sizes. O(length).
fn sum_sizes(sizes: &[u16]) -> usize
    requires { length sizes.now ≤ max_nodes }
    ensures { result ≡ sum sizes.now }
{
    sizes.iter().map(|size| usize::from(*size)).sum()
}

// Whether r may be part q's parent: none, or a later part below p. O(1).
#[tactic(auto, unfolding(plan::specs::File::may_be_parent))]
fn may_be_parent(p: usize, q: usize, r: u16) -> bool
    ensures { result ≡ may_be_parent p q r }
{
    if r == Plan::NO_PARENT {
        return true;
    }
    if r as usize <= q {
        return false;
    }
    (r as usize) < p
}

// Whether some part's parent is neither none nor a later part. O(p).
fn bad_parents(parents: &[u16]) -> bool
    ensures { result ≡ exists (λ q. not (may_be_parent (length parents.now) q (get_or parents.now q 0))) (below (length parents.now)) }
{
    for (q, &r) in parents.iter().enumerate() {
        if !may_be_parent(parents.len(), q, r) {
            return true;
        }
    }
    false
}

// Check 16: a size is 0, the sizes do not sum to n, or a part's parent is neither none nor a later part. O(p).
#[tactic(auto, unfolding(plan::specs::File::bad_parts), using(crate::proofs::Fields::total_sum))]
fn bad_parts(n: usize, sizes: &[u16], parents: &[u16]) -> bool
    requires { (length sizes.now ≤ max_nodes) × (length parents.now ≡ length sizes.now) }
    ensures { result ≡ bad_parts (order_and_parts n [] sizes.now parents.now) }
{
    if contains(sizes, 0) {
        return true;
    }
    if sum_sizes(sizes) != n {
        return true;
    }
    bad_parents(parents)
}

// Checks 15 and 16. O(4,096 + n).
#[tactic(auto, unfolding(plan::specs::Refusals::first_fault, plan::specs::File::bad_order, plan::specs::File::bad_parts))]
pub fn check_order_and_parts(order: &[u16], sizes: &[u16], parents: &[u16]) -> Result<(), Refusal>
    requires { (length order.now ≤ max_nodes) × (length sizes.now ≤ max_nodes) × (length parents.now ≡ length sizes.now) }
    ensures { fault_of result ≡ first_fault (order_and_parts_checks (order_and_parts (length order.now) order.now sizes.now parents.now)) }
{
    if bad_order(order) {
        return Err(Refusal::Order);
    }
    if bad_parts(order.len(), sizes, parents) {
        return Err(Refusal::Parts);
    }
    Ok(())
}
