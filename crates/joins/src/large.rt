// Rings of up to 4,096 nodes, whose answers are known by how they are made: at the most nodes and entries, and beyond.
use crate::counts::Counts;
use crate::lent::{Known, Lent, Lists, Side};
use crate::made::Ring;
use crate::pairs::{Kind, Order, put_pairs};
use crate::trial::try_joined;

const UP: Kind = Kind::Ascending;

const DOWN: Kind = Kind::Descending;

const MIXED: Kind = Kind::Mixed;

const MESH: Known = Known::Mesh;

const ITSELF: Known = Known::Itself;

// A case: the first ring's nodes and how far it reaches, the second's, how many pairs there are, in which order the nodes of the first and of the
// second are taken, and what is known of the answer.
type Row = (usize, usize, usize, usize, usize, Kind, Kind, Known);

const TABLE: [Row; 34] = [
    // 4,096 nodes and one more, with few entries
    (2048, 1, 2048, 1, 0, UP, UP, MESH),
    (2048, 1, 2049, 1, 0, UP, UP, Known::Refused(1)),
    (2048, 1, 2049, 1, 1, DOWN, UP, MESH),
    (4096, 1, 1, 0, 0, UP, UP, Known::Refused(1)),
    (4096, 1, 1, 0, 1, DOWN, UP, ITSELF),
    (1, 0, 4096, 2, 0, UP, UP, Known::Refused(1)),
    (1, 0, 4096, 2, 1, UP, DOWN, MESH),
    (4096, 2, 4096, 2, 4095, UP, UP, Known::Refused(1)),
    (4096, 0, 4096, 0, 4096, MIXED, MIXED, ITSELF),
    (4096, 3, 4096, 3, 0, UP, UP, Known::Refused(1)),
    // a ring with itself, whose equal lists merge: 65,536 entries, 65,520 and fewer
    (4096, 8, 4096, 8, 4096, UP, UP, ITSELF),
    (4096, 8, 4096, 8, 4096, UP, DOWN, ITSELF),
    (4096, 8, 4096, 7, 4096, UP, UP, ITSELF),
    (4096, 7, 4096, 8, 4096, DOWN, DOWN, MESH),
    (2520, 13, 2520, 13, 2520, DOWN, UP, ITSELF),
    (2560, 8, 2560, 8, 2560, UP, UP, ITSELF),
    // 65,536 entries and a few that merge, or do not
    (4096, 8, 3, 1, 3, UP, UP, ITSELF),
    (4096, 8, 3, 1, 3, UP, DOWN, ITSELF),
    (4096, 8, 3, 1, 3, MIXED, UP, Known::Refused(3)),
    (4096, 8, 2, 0, 2, MIXED, UP, ITSELF),
    (3, 1, 4096, 8, 3, UP, UP, MESH),
    (3, 1, 4096, 8, 3, UP, MIXED, Known::Refused(3)),
    // 65,536 entries side by side, and more
    (2048, 8, 2048, 8, 0, UP, UP, MESH),
    (2048, 12, 2048, 12, 0, UP, UP, Known::Refused(3)),
    // 26 alone, after 3, and after 1
    (2048, 8, 2048, 8, 1, UP, UP, Known::Refused(26)),
    (2000, 8, 27, 13, 27, UP, UP, Known::Refused(26)),
    (2000, 8, 2100, 8, 4, UP, UP, Known::Refused(3)),
    (4096, 8, 27, 13, 27, UP, UP, Known::Refused(3)),
    (4096, 8, 27, 13, 26, UP, UP, Known::Refused(1)),
    (2048, 8, 2049, 8, 0, UP, UP, Known::Refused(1)),
    // pairs in mixed orders
    (4096, 4, 4096, 4, 4096, MIXED, MIXED, MESH),
    (4096, 6, 4096, 6, 4096, UP, MIXED, Known::Refused(3)),
    (3000, 4, 3000, 5, 2000, MIXED, MIXED, MESH),
    (1500, 6, 1500, 7, 900, MIXED, DOWN, MESH),
];

// Puts the rings and the pairs of a case.
fn put_case(lists: &mut Lists, row: Row) -> Lent {
    let (n1, reach1, n2, reach2, pairs, kind1, kind2, known) = row;
    let ring1 = Ring {
        n: n1,
        reach: reach1,
    };
    let ring2 = Ring {
        n: n2,
        reach: reach2,
    };
    let order1 = Order {
        n: n1,
        kind: kind1,
        seed: 0,
    };
    let order2 = Order {
        n: n2,
        kind: kind2,
        seed: 1,
    };
    let mesh1 = ring1.put(lists, Side::First);
    let mesh2 = ring2.put(lists, Side::Second);
    put_pairs(lists, order1, order2, pairs);
    Lent::new(mesh1, mesh2, pairs, known).enlarged()
}

pub(crate) fn all(c: &mut Counts, lists: &mut Lists) {
    c.begin(4);
    for row in TABLE {
        let l = put_case(lists, row);
        try_joined(c, &l, lists);
    }
}
