// Every order of two faults and more: each fault of the first mesh with each of the second, each of the pairs and each of the joined mesh. The meshes
// are rings of 30 nodes at least.
use crate::counts::Counts;
use crate::lent::{Known, Lent, Lists, Mesh, Side};
use crate::made::Ring;
use crate::pairs::{Fault, Order, put_pairs};
use crate::trial::{try_joined, try_without_room};
use meshes::{less, more};

// Faults of a mesh: none, n is 0, n is too large, the first start is not 0, a start is missing, too many entries, an entry that is no node, the node
// itself, two entries that do not ascend, a long list, and an entry that is one-sided.
#[derive(Clone, Copy)]
enum MeshFault {
    None,
    NoNodes,
    ManyNodes,
    FirstStart,
    MissingStart,
    ManyEntries,
    NoNode,
    NodeItself,
    NotAscending,
    LongList,
    OneSided,
}

impl MeshFault {
    const ALL: [MeshFault; 11] = [
        MeshFault::None,
        MeshFault::NoNodes,
        MeshFault::ManyNodes,
        MeshFault::FirstStart,
        MeshFault::MissingStart,
        MeshFault::ManyEntries,
        MeshFault::NoNode,
        MeshFault::NodeItself,
        MeshFault::NotAscending,
        MeshFault::LongList,
        MeshFault::OneSided,
    ];

    // The refusal that the fault calls for.
    fn refusal(self) -> Option<u32> {
        match self {
            MeshFault::None => None,
            MeshFault::NoNodes | MeshFault::ManyNodes => Some(1),
            MeshFault::FirstStart | MeshFault::MissingStart => Some(2),
            MeshFault::ManyEntries => Some(3),
            MeshFault::NoNode => Some(4),
            MeshFault::NodeItself => Some(5),
            MeshFault::NotAscending => Some(6),
            MeshFault::LongList => Some(26),
            MeshFault::OneSided => Some(7),
        }
    }

    // The mesh's numbers with the fault.
    fn numbers(self, mut m: Mesh) -> Mesh {
        match self {
            MeshFault::NoNodes => m.n = 0,
            MeshFault::ManyNodes => m.n = m.n % 65536 + 65536,
            MeshFault::MissingStart => m.starts = less(m.starts),
            MeshFault::ManyEntries => m.entries = 65537,
            _ => {}
        }
        m
    }

    // Puts the start that the fault changes, or the first one as it is.
    fn put_start(self, lists: &mut Lists, side: Side, r: Ring) {
        let from = side.starts_at() % 65536;
        match self {
            MeshFault::FirstStart => lists.put_start(from, 1),
            MeshFault::ManyEntries => lists.put_start(from + r.n % 65536, 65537),
            _ => lists.put_start(from, 0),
        }
    }

    // Puts the entry of the first node's list that the fault changes, or the first one as it is.
    fn put_entry(self, lists: &mut Lists, side: Side, r: Ring) {
        let from = side.neighbours_at() % 4294967296;
        match self {
            MeshFault::NoNode => lists.put_node(from, r.n),
            MeshFault::NodeItself => lists.put_node(from, 0),
            MeshFault::NotAscending => lists.put_node(from, less(r.n)),
            MeshFault::OneSided => lists.put_node(from + less(r.reach) % 64, more(r.reach)),
            _ => lists.put_node(from, 1),
        }
    }

    // Puts a ring with the fault.
    fn put(self, lists: &mut Lists, side: Side, r: Ring) -> Mesh {
        let m = r.put(lists, side);
        self.put_start(lists, side, r);
        self.put_entry(lists, side, r);
        if let MeshFault::LongList = self {
            put_long_list(lists, side);
        }
        self.numbers(m)
    }
}

// Puts 27 entries into the first node's list, which are taken from the lists behind it.
fn put_long_list(lists: &mut Lists, side: Side) {
    for i in 0..27usize {
        let k = side.starts_at() % 65536 + i + 1;
        let start = lists.start(k).max(27);
        lists.put_node(side.neighbours_at() % 4294967296 + i, i + 1);
        lists.put_start(k, start);
    }
}

// Two rings: their nodes, how far both reach, and what the joined mesh is refused by, which has two pairs.
#[derive(Clone, Copy)]
struct Base {
    n1: usize,
    n2: usize,
    reach: usize,
    refusal: Option<u32>,
}

const SOUND: Base = Base {
    n1: 40,
    n2: 30,
    reach: 4,
    refusal: None,
};

// The joined mesh is refused by 26, by 3 (26 too) and by 1.
const REFUSED: [Base; 3] = [
    Base {
        n1: 40,
        n2: 30,
        reach: 13,
        refusal: Some(26),
    },
    Base {
        n1: 2048,
        n2: 2048,
        reach: 9,
        refusal: Some(3),
    },
    Base {
        n1: 4096,
        n2: 30,
        reach: 1,
        refusal: Some(1),
    },
];

// Faults of the first mesh, of the second and of the pairs.
#[derive(Clone, Copy)]
struct Faults {
    first: MeshFault,
    second: MeshFault,
    pairs: Fault,
}

impl Faults {
    // What is known of an answer: the first refusal of the first mesh's, the second's, the pairs' and the joined mesh's.
    fn known(self, base: Base) -> Known {
        let refusal = self
            .first
            .refusal()
            .or(self.second.refusal())
            .or(self.pairs.refusal())
            .or(base.refusal);
        match refusal {
            Some(number) => Known::Refused(number),
            None => Known::Mesh,
        }
    }

    // Puts two rings with these faults.
    fn put(self, lists: &mut Lists, base: Base) -> Lent {
        let Base { n1, n2, reach, .. } = base;
        let mesh1 = self.first.put(lists, Side::First, Ring { n: n1, reach });
        let mesh2 = self.second.put(lists, Side::Second, Ring { n: n2, reach });
        put_pairs(lists, Order::own(n1), Order::own(n2), 2);
        self.pairs.put(lists, 2, n1, n2);
        self.pairs
            .lengths(Lent::new(mesh1, mesh2, 2, self.known(base)))
    }
}

// Nothing is lent for rings whose joined mesh is refused.
fn try_faults(c: &mut Counts, lists: &mut Lists, base: Base, faults: Faults) {
    let l = faults.put(lists, base);
    if base.refusal.is_none() {
        try_joined(c, &l, lists);
    } else {
        try_without_room(c, &l, lists);
    }
}

fn every_fault_of_pairs(
    c: &mut Counts,
    lists: &mut Lists,
    base: Base,
    first: MeshFault,
    second: MeshFault,
) {
    for pairs in Fault::ALL {
        let faults = Faults {
            first,
            second,
            pairs,
        };
        try_faults(c, lists, base, faults);
    }
}

fn every_second_fault(c: &mut Counts, lists: &mut Lists, base: Base, first: MeshFault) {
    for second in MeshFault::ALL {
        every_fault_of_pairs(c, lists, base, first, second);
    }
}

fn every_fault(c: &mut Counts, lists: &mut Lists, base: Base) {
    for first in MeshFault::ALL {
        every_second_fault(c, lists, base, first);
    }
}

pub(crate) fn all(c: &mut Counts, lists: &mut Lists) {
    c.begin(3);
    every_fault(c, lists, SOUND);
    for base in REFUSED {
        every_fault(c, lists, base);
    }
}
