// Where the nodes of the second mesh go, and where those of the joined mesh come from.
ghost use Rattle.std.specs.Prelude.{◌≡◌, true, false, cond, ℕ, ◌≤◌, ◌<◌, length, take, get_or};
ghost use Rattle.plan.specs.Lists.{is_in, index_of, twice};
ghost use Rattle.plan.specs.Mesh.{max_nodes};
ghost use Rattle.theory.specs.Pairings.{Paired};
ghost use Rattle.join.specs.Numbers.{following, Destinations};
ghost use Rattle.join.specs.Pairings.{pairing_of};

use crate::Pairing;
use mesh::{NONE, filled};
use plan::Plan;

// Each paired node of the second mesh goes to its node of the first. O(pairs).
fn put_paired(pairs: &Pairing, goes: &mut [u16])
    requires { (length pairs.now.first.now ≡ length pairs.now.second.now) × (twice pairs.now.second.now ≡ false) × ((w : ℕ) → is_in w pairs.now.second.now ≡ true → w < length goes.old) }
    ensures { (length goes.new ≡ length goes.old) × ((w : ℕ) → get_or goes.new w 0 ≡ cond (is_in w pairs.now.second.now) (get_or pairs.now.first.now (index_of w pairs.now.second.now) 0) (get_or goes.old w 0)) }
{
    for (v, w) in pairs.first.iter().zip(pairs.second.iter()) {
        goes[*w as usize] = *v;
    }
}

// The others, which have gone nowhere yet, follow the nodes of the first mesh in their order. O(n2).
fn put_unpaired(n1: usize, n2: usize, goes: &mut [u16])
    requires { (n1 ≤ max_nodes) × (n2 ≤ max_nodes) × (n2 ≤ length goes.old) }
    ensures { (length goes.new ≡ length goes.old) × ((w : ℕ) → w < n2 → get_or goes.new w 0 ≡ following n1 goes.old w) }
{
    let mut next = n1 as u16;
    for w in 0..n2 {
        if goes[w] == NONE {
            goes[w] = next;
            next += 1;
        }
    }
}

// Where each node of the second mesh goes. O(4,096 + n2 + pairs).
pub(crate) fn destinations(n1: usize, n2: usize, pairs: &Pairing) -> [u16; Plan::NODES]
    requires { (n1 ≤ max_nodes) × (n2 ≤ max_nodes) × Paired n1 n2 (pairing_of pairs.now) }
    ensures { Destinations n1 n2 (pairing_of pairs.now) result }
{
    let mut goes = filled(NONE);
    put_paired(pairs, &mut goes);
    put_unpaired(n1, n2, &mut goes);
    goes
}

// The node of the second mesh that each node of the joined one comes from, n2 where there is none. O(4,096 + n2).
pub(crate) fn origins(n2: usize, goes: &[u16]) -> [u16; Plan::NODES]
    requires { (n2 ≤ max_nodes) × (n2 ≤ length goes.now) × (twice (take n2 goes.now) ≡ false) × ((w : ℕ) → w < n2 → get_or goes.now w 0 < max_nodes) }
    ensures { (length result ≡ max_nodes) × ((v : ℕ) → v < max_nodes → get_or result v 0 ≡ index_of v (take n2 goes.now)) }
{
    // kept: n2, which is no node, and no Option: the book has it so (`index_of`, DECISIONS 155)
    let mut from = filled(n2 as u16);
    for (w, &v) in goes[..n2].iter().enumerate() {
        from[v as usize] = w as u16;
    }
    from
}
