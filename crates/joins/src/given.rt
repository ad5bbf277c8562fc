// Small meshes and pairs whose answers are known: paths end to end, with the joined mesh written out, and stars whose centres are paired.
use crate::buffers::{holds, put_stale};
use crate::counts::{Counts, Outcome};
use crate::lent::{Known, Lent, Lists, Side};
use crate::made::put_case;
use crate::pairs::{Order, put_pairs};
use crate::trial::{join, try_joined};
use meshes::{from_edges, more, numbered, star};
use plan::Plan;

// Pairs of nodes of two paths, and the starts and the neighbours of the joined mesh.
struct Joined {
    first: &'static [u16],
    second: &'static [u16],
    starts: &'static [u32],
    neighbours: &'static [u16],
}

// The paths 0-1-2-3 and 0-1-2 joined along pairs: end to end, once with the second path's numbers going down, and side by side; along two pairs, which
// makes a ring with a tail, and along three, which adds nothing.
const PATHS: [Joined; 5] = [
    Joined {
        first: &[3],
        second: &[0],
        starts: &[0, 1, 3, 5, 7, 9, 10],
        neighbours: &[1, 0, 2, 1, 3, 2, 4, 3, 5, 4],
    },
    Joined {
        first: &[0],
        second: &[2],
        starts: &[0, 2, 4, 6, 7, 8, 10],
        neighbours: &[1, 5, 0, 2, 1, 3, 2, 5, 0, 4],
    },
    Joined {
        first: &[],
        second: &[],
        starts: &[0, 1, 3, 5, 6, 7, 9, 10],
        neighbours: &[1, 0, 2, 1, 3, 2, 5, 4, 6, 5],
    },
    Joined {
        first: &[1, 3],
        second: &[2, 0],
        starts: &[0, 1, 4, 6, 8, 10],
        neighbours: &[1, 0, 2, 4, 1, 3, 2, 4, 1, 3],
    },
    Joined {
        first: &[2, 1, 0],
        second: &[0, 1, 2],
        starts: &[0, 1, 3, 5, 6],
        neighbours: &[1, 0, 2, 1, 3, 2],
    },
];

// Whether the proved joining leaves these lists, and nothing else.
fn leaves(l: &Lent, lists: &Lists, starts: &[u32], neighbours: &[u16]) -> bool {
    let mut left_starts = [0u32; 20];
    let mut left = [0u16; 20];
    put_stale(&mut left_starts);
    put_stale(&mut left);
    let Ok(a) = join(l, lists, &mut left_starts, &mut left) else {
        return false;
    };
    a.nodes as usize + 1 == starts.len()
        && a.entries as usize == neighbours.len()
        && holds(&left_starts, starts, starts.len())
        && holds(&left, neighbours, neighbours.len())
}

fn try_path(c: &mut Counts, lists: &mut Lists, path: &Joined) {
    let mesh1 = put_case(lists, Side::First, &from_edges(4, &[0, 1, 1, 2, 2, 3]));
    let mesh2 = put_case(lists, Side::Second, &from_edges(3, &[0, 1, 1, 2]));
    lists.put_nodes(Side::First.pairs_at(), path.first);
    lists.put_nodes(Side::Second.pairs_at(), path.second);
    let l = Lent::new(mesh1, mesh2, path.first.len(), Known::Mesh);
    let o = try_joined(c, &l, lists);
    c.count(Outcome {
        as_known: leaves(&l, lists, path.starts, path.neighbours),
        same: true,
        ..o
    });
}

fn all_paths(c: &mut Counts, lists: &mut Lists) {
    for path in PATHS.iter() {
        try_path(c, lists, path);
    }
}

// Two stars of so many leaves, of which the centres and the first leaves are paired, so many in all.
fn try_stars(
    c: &mut Counts,
    lists: &mut Lists,
    leaves1: u8,
    leaves2: u8,
    pairs: usize,
    known: Known,
) {
    let mesh1 = put_case(lists, Side::First, &star(leaves1));
    let mesh2 = put_case(lists, Side::Second, &star(leaves2));
    put_pairs(lists, Order::own(64), Order::own(64), pairs);
    try_joined(c, &Lent::new(mesh1, mesh2, pairs, known), lists);
}

// Stars of which so many leaves are paired that the centre keeps as many neighbours as are allowed, and one leaf less, if there are any.
fn stars(c: &mut Counts, lists: &mut Lists, leaves1: u8, leaves2: u8) {
    let sum = usize::from(leaves1) + usize::from(leaves2);
    let Some(shared) = sum.checked_sub(Plan::NEIGHBOURS) else {
        return;
    };
    try_stars(c, lists, leaves1, leaves2, more(shared), Known::Mesh);
    if shared != 0 {
        try_stars(c, lists, leaves1, leaves2, shared, Known::Refused(26));
    }
}

// kept: one number for the leaves of both, for a function has one loop.
fn all_stars(c: &mut Counts, lists: &mut Lists) {
    for k in 0..729u16 {
        stars(c, lists, (k / 27) as u8, (k % 27) as u8);
    }
}

// Single nodes with lists of these lengths, whose pairs are all the same.
fn try_lists(c: &mut Counts, lists: &mut Lists, first: usize, second: usize, known: Known) {
    let mesh1 = put_case(lists, Side::First, &numbered(1, 0));
    let mesh2 = put_case(lists, Side::Second, &numbered(1, 0));
    let l = Lent {
        second,
        ..Lent::new(mesh1, mesh2, first, known)
    };
    try_joined(c, &l, lists);
}

// Lists of many pairs, and lists whose lengths have the same low bits.
fn long_lists(c: &mut Counts, lists: &mut Lists) {
    put_pairs(lists, Order::own(1), Order::own(1), 65600);
    try_lists(c, lists, 65536, 0, Known::Refused(32));
    try_lists(c, lists, 1, 65537, Known::Refused(32));
    try_lists(c, lists, 65537, 65537, Known::Refused(33));
    try_lists(c, lists, 0, 0, Known::Mesh);
    try_lists(c, lists, 1, 1, Known::Mesh);
}

pub(crate) fn all(c: &mut Counts, lists: &mut Lists) {
    c.begin(1);
    all_paths(c, lists);
    all_stars(c, lists);
    long_lists(c, lists);
}
