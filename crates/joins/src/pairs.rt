// The pairs' two lists put into the lent buffer, in several orders, sound or with a fault.
use crate::lent::{Lent, Lists, Side};
use meshes::{draw, less, more};

// How the nodes of a mesh are ordered that are paired: ascending, descending, each once in a mixed order, and any, some perhaps more than once.
#[derive(Clone, Copy)]
pub(crate) enum Kind {
    Ascending,
    Descending,
    Mixed,
    Drawn,
}

// A list of nodes of a mesh of n nodes, in an order that may go by a seed.
#[derive(Clone, Copy)]
pub(crate) struct Order {
    pub(crate) n: usize,
    pub(crate) kind: Kind,
    pub(crate) seed: u64,
}

// Four primes above 4,096: multiples by one of them of different numbers below n have different remainders by n.
const PRIMES: [usize; 4] = [4127, 4133, 4153, 4159];

impl Order {
    // Each node under its own number.
    pub(crate) fn own(n: usize) -> Order {
        Order {
            n,
            kind: Kind::Ascending,
            seed: 0,
        }
    }

    // The node of pair k.
    fn node(self, k: usize) -> usize {
        let n = self.n;
        let i = k % 65536;
        if n == 0 {
            return 0;
        }
        match self.kind {
            Kind::Ascending => i % n,
            Kind::Descending => less(n).saturating_sub(i % n),
            Kind::Mixed => {
                let x = (i + draw(self.seed, 0, 41, n) % 65536) % 1048576;
                x * PRIMES[draw(self.seed, 1, 41, 4) % 4] % n
            }
            Kind::Drawn => draw(self.seed, i, 42, n),
        }
    }

    fn put(self, lists: &mut Lists, side: Side, count: usize) {
        for k in 0..count {
            lists.put_node(side.pairs_at() % 4294967296 + k % 4294967296, self.node(k));
        }
    }
}

// Puts so many pairs, and one more that may be lent.
pub(crate) fn put_pairs(lists: &mut Lists, first: Order, second: Order, count: usize) {
    first.put(lists, Side::First, more(count));
    second.put(lists, Side::Second, more(count));
}

// Faults of the pairs: a list that is longer than the other; a node that does not exist; a node paired twice; and two of these.
#[derive(Clone, Copy)]
pub(crate) enum Fault {
    None,
    LongSecond,
    LongFirst,
    NoNodeOfFirst,
    NoNodeOfSecond,
    TwiceOfFirst,
    TwiceOfSecond,
    TwiceAndLongSecond,
    TwiceAndNoNode,
    TwiceOfBoth,
}

impl Fault {
    pub(crate) const ALL: [Fault; 10] = [
        Fault::None,
        Fault::LongSecond,
        Fault::LongFirst,
        Fault::NoNodeOfFirst,
        Fault::NoNodeOfSecond,
        Fault::TwiceOfFirst,
        Fault::TwiceOfSecond,
        Fault::TwiceAndLongSecond,
        Fault::TwiceAndNoNode,
        Fault::TwiceOfBoth,
    ];

    // The refusal that the fault calls for.
    pub(crate) fn refusal(self) -> Option<u32> {
        match self {
            Fault::None => None,
            Fault::TwiceOfFirst | Fault::TwiceOfSecond | Fault::TwiceOfBoth => Some(33),
            _ => Some(32),
        }
    }

    // The lengths of the lists with the fault.
    pub(crate) fn lengths(self, mut l: Lent) -> Lent {
        match self {
            Fault::LongSecond | Fault::TwiceAndLongSecond => l.second = more(l.second),
            Fault::LongFirst => l.first = more(l.first),
            _ => {}
        }
        l
    }

    // The last node of the first list, which was `last`: none of n, or the first one again.
    fn last_of_first(self, last: usize, first: usize, n: usize) -> usize {
        match self {
            Fault::NoNodeOfFirst => n,
            Fault::TwiceOfFirst
            | Fault::TwiceAndLongSecond
            | Fault::TwiceAndNoNode
            | Fault::TwiceOfBoth => first,
            _ => last,
        }
    }

    fn last_of_second(self, last: usize, first: usize, n: usize) -> usize {
        match self {
            Fault::NoNodeOfSecond => 65535,
            Fault::TwiceAndNoNode => n,
            Fault::TwiceOfSecond | Fault::TwiceOfBoth => first,
            _ => last,
        }
    }

    // Puts the fault into the lists of so many pairs, two at least, of meshes of so many nodes.
    pub(crate) fn put(self, lists: &mut Lists, pairs: usize, n1: usize, n2: usize) {
        let first1 = Side::First.pairs_at();
        let first2 = Side::Second.pairs_at();
        let last1 = first1 % 4294967296 + less(pairs) % 65536;
        let last2 = first2 % 4294967296 + less(pairs) % 65536;
        let x = self.last_of_first(lists.node(last1), lists.node(first1), n1);
        let y = self.last_of_second(lists.node(last2), lists.node(first2), n2);
        lists.put_node(last1, x);
        lists.put_node(last2, y);
    }
}
