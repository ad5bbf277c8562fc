// Meshes of at most 64 nodes and pairs that a seed draws, sound and with one fault or more.
use crate::counts::Counts;
use crate::lent::{Known, Lent, Lists, Side};
use crate::made::put_case;
use crate::pairs::{Fault, Kind, Order, put_pairs};
use crate::trial::{try_joined, try_without_room};
use meshes::{Case, damaged, draw, drawn};
use naive::Refused;

// How many pairs: none, one, as many as can be, or any number.
fn count(seed: u64, most: usize) -> usize {
    match draw(seed, 0, 51, 8) {
        0 => 0,
        1 => most.min(1),
        2 => most,
        3 => most.min(draw(seed, 1, 51, 5)),
        _ => draw(seed, 2, 51, most % 65536 + 1),
    }
}

// The order in which a mesh's nodes are paired: for one seed in eight any, else one that has no node twice.
fn order(seed: u64, n: usize, which: usize) -> Order {
    let kind = if draw(seed, 2, 52, 8) == 0 {
        Kind::Drawn
    } else {
        match draw(seed, which, 52, 4) {
            0 => Kind::Ascending,
            1 => Kind::Descending,
            _ => Kind::Mixed,
        }
    };
    Order {
        n,
        kind,
        seed: seed % 4294967296 + which as u64 % 2,
    }
}

// A fault of the pairs, or for most seeds none.
fn fault(seed: u64) -> Fault {
    if draw(seed, 0, 53, 4) == 0 {
        return Fault::ALL[draw(seed, 1, 53, 10) % 10];
    }
    Fault::None
}

// Two meshes with pairs, and a fault of the pairs, that the seed draws.
fn try_pairs(c: &mut Counts, lists: &mut Lists, a: &Case, b: &Case, seed: u64) {
    let mesh1 = put_case(lists, Side::First, a);
    let mesh2 = put_case(lists, Side::Second, b);
    let pairs = count(seed, a.n.min(b.n) % 128);
    put_pairs(lists, order(seed, a.n, 0), order(seed, b.n, 1), pairs);
    fault(seed).put(lists, pairs, a.n, b.n);
    let l = fault(seed).lengths(Lent::new(mesh1, mesh2, pairs, Known::Any));
    try_joined(c, &l, lists);
}

// A mesh joined with itself, node by node: where it has no list that is too long, the joined mesh is the mesh itself.
fn try_itself(c: &mut Counts, lists: &mut Lists, a: &Case) {
    let mesh1 = put_case(lists, Side::First, a);
    let mesh2 = put_case(lists, Side::Second, a);
    put_pairs(lists, Order::own(a.n), Order::own(a.n), a.n % 128);
    let o = try_without_room(c, &Lent::new(mesh1, mesh2, a.n, Known::Any), lists);
    if let Err(Refused(8)) = o.answer {
        try_joined(c, &Lent::new(mesh1, mesh2, a.n, Known::Itself), lists);
    }
}

// Two meshes that the seed draws, either of them damaged, and both.
fn each(c: &mut Counts, lists: &mut Lists, seed: u64) {
    let s = seed % 4294967296;
    let a = drawn(s);
    let b = drawn(s + 7919);
    let bad_a = damaged(a, s);
    let bad_b = damaged(b, s + 1);
    try_pairs(c, lists, &a, &b, s);
    try_pairs(c, lists, &bad_a, &b, s + 2);
    try_pairs(c, lists, &a, &bad_b, s + 3);
    try_pairs(c, lists, &bad_a, &bad_b, s + 4);
    try_itself(c, lists, &a);
}

pub(crate) fn all(c: &mut Counts, lists: &mut Lists) {
    c.begin(2);
    for number in 0..2000u64 {
        each(c, lists, number * 5003);
    }
}
