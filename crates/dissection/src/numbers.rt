// One number for each node, over lent arrays: `FRESH` in the set at hand while a node is not reached, `OUTSIDE` where it is not in the set, else the
// number of its level, of its component or of its part. Each function here gives new numbers to the nodes of a list.
ghost use Rattle.std.specs.Prelude.{◌≡◌, true, ℕ, ◌<◌, length, get_or};
ghost use Rattle.plan.specs.Lists.{is_in};
ghost use Rattle.dissection.specs.Numbers.{Within, NumberedBy, Renumbered};

// kept: numbers, and no enum beside a level: its cases would be more than 16 bits hold, and the arrays with a place for each node longer

// the number of a node that is in the set at hand and was not reached yet
pub(crate) const FRESH: u16 = 65535;
// the number of a node that is not in it
pub(crate) const OUTSIDE: u16 = 65534;

// Each node of a list gets the number that `change` makes of its own. O(length).
pub(crate) fn renumber<F: Fn(u16) -> u16>(nodes: &[u16], change: F, numbers: &mut [u16])
    requires within { Within (length numbers.old) nodes.now }
    requires callable { F.IsAlwaysCallable change }
    ensures { (f : ℕ → ℕ) → ((x r : ℕ) → F.post change x r → r ≡ f x) → Renumbered f nodes.now numbers.old numbers.new }
{
    for &v in nodes {
        let v = v as usize;
        numbers[v] = change(numbers[v]);
    }
}

// Each node of a list gets number x. O(length).
pub(crate) fn fill(nodes: &[u16], x: u16, numbers: &mut [u16])
    requires { (v : ℕ) → is_in v nodes.now ≡ true → v < length numbers.old }
    ensures { Renumbered (λ _. x) nodes.now numbers.old numbers.new }
{
    for &v in nodes {
        numbers[v as usize] = x;
    }
}

// Each node of a list gets the number that it has in another array. O(length).
pub(crate) fn transfer(nodes: &[u16], from: &[u16], numbers: &mut [u16])
    requires { (v : ℕ) → is_in v nodes.now ≡ true → (v < length from.now) × (v < length numbers.old) }
    ensures { NumberedBy (λ v. get_or from.now v 0) nodes.now numbers.old numbers.new }
{
    for &v in nodes {
        numbers[v as usize] = from[v as usize];
    }
}
