// The parts of a finished dissection, handed out: order, sizes and parents.
ghost use Rattle.std.specs.Prelude.{◌≡◌, ◌≢◌, cond, ◌+◌, ◌-◌, ◌≤◌, ◌<◌, eqb, length, take, drop};
ghost use Rattle.plan.specs.Lists.{written};
ghost use Rattle.plan.specs.Mesh.{max_nodes, no_parent};
ghost use Rattle.plan.specs.Steps.{by_number};
ghost use Rattle.dissection.specs.Blocks.{leading, block_sizes, block_parents, Heads};

use crate::state::INNER;
use plan::Plan;

// The place behind the block that begins at place `at`. O(its length).
fn block_end(n: usize, heads: &[u16], at: usize) -> usize
    requires { (at < n) × (n ≤ length heads.now) }
    ensures { result ≡ at + 1 + leading (drop (at + 1) (take n heads.now)) }
{
    at + 1 + heads[at + 1..n].iter().take_while(|&&h| h == INNER).count()
}

// A parent by its number as a part: the part chosen as number k (from 0) is part count − 1 − k. O(1).
fn by_number(parent: u16, count: u16) -> u16
    requires { parent ≢ no_parent → parent < count }
    ensures { result ≡ cond (eqb parent no_parent) no_parent (count - 1 - parent) }
{
    if parent == Plan::NO_PARENT {
        return Plan::NO_PARENT;
    }
    count - 1 - parent
}

// The sizes and parents of the parts, by number. O(n).
pub fn write_parts(
    n: usize,
    heads: &[u16; Plan::NODES],
    count: usize,
    sizes: &mut [u16],
    parents: &mut [u16],
)
    requires { (length heads.now ≡ max_nodes) × (n ≤ max_nodes) × Heads (take n heads.now) count × (count ≤ length sizes.old) × (count ≤ length parents.old) }
    ensures { (sizes.new ≡ written (block_sizes (take n heads.now)) sizes.old) × (parents.new ≡ written (by_number count (block_parents (take n heads.now))) parents.old) }
{
    let mut at: usize = 0;
    // kept: tried over both arrays zipped; the proof knows nothing of what is written through a zip of iter_mut
    for q in 0..count {
        let end = block_end(n, heads, at);
        sizes[q] = (end - at) as u16;
        parents[q] = by_number(heads[at], count as u16);
        at = end;
    }
}

// The order. O(n).
pub fn write_order(n: usize, held: &[u16], order: &mut [u16])
    requires { (n ≤ length held.now) × (n ≤ length order.old) }
    ensures { order.new ≡ written (take n held.now) order.old }
{
    order[..n].copy_from_slice(&held[..n]);
}
