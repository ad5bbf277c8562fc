// Fillings with one fault and with two, which show which check comes first: a wrong number, a list or a buffer of another length, a wrong entry, a
// pivot that is refused.
use crate::counts::Counts;
use crate::filling::{Filling, Number};
use crate::trial::try_filling;
use meshes::{less, more};
use plan::Plan;

// How a number is changed.
#[derive(Clone, Copy)]
enum Change {
    Zero,
    Less,
    More,
    Wide,
    Six,
    Seven,
    ManyNodes,
    ManySlots,
}

impl Change {
    const ALL: [Change; 8] = [
        Change::Zero,
        Change::Less,
        Change::More,
        Change::Wide,
        Change::Six,
        Change::Seven,
        Change::ManyNodes,
        Change::ManySlots,
    ];

    // Another number for x, in a filling of n nodes.
    fn of(self, x: usize, n: usize) -> usize {
        match self {
            Change::Zero => 0,
            Change::Less => less(x),
            Change::More => more(x),
            Change::Wide => x % 4294967296 + 4294967296,
            Change::Six => 6,
            Change::Seven => 7,
            Change::ManyNodes => Plan::NODES + 1,
            Change::ManySlots => more(naive::most_slots(n)),
        }
    }
}

#[derive(Clone, Copy)]
enum List {
    Order,
    Sizes,
    Parents,
    ColumnStarts,
    Rows,
}

impl List {
    const ALL: [List; 5] = [
        List::Order,
        List::Sizes,
        List::Parents,
        List::ColumnStarts,
        List::Rows,
    ];
}

// The numbers that are tried in an entry: small ones, and the greatest.
const ENTRIES: [u32; 15] = [0, 1, 2, 3, 4, 5, 6, 7, 8, 9, 10, 11, 12, 13, 4294967295];

// Another number in a list, in the plan or behind it, cut to its width. It may be a plan all the same, with another count of multiplications.
fn with_entry(f: &Filling, list: List, i: usize, x: u32) -> Filling {
    let mut g = *f;
    let short = (x % 65536) as u16;
    let at = i % 64;
    g.multiplications = 0;
    match list {
        List::Order => g.order[at] = short,
        List::Sizes => g.sizes[at] = short,
        List::Parents => g.parents[at] = short,
        List::ColumnStarts => g.column_starts[at] = x,
        List::Rows => g.rows[at] = short,
    }
    g
}

// Another number of unknowns, n, p or s, or another length: 28, 29, 13 and 30, or a number that the lists are not for, or a list that is longer than
// needed; a wrong first entry of a list, 15 to 19; and a pivot that fails, 31, at a position.
#[derive(Clone, Copy)]
enum Fault {
    Number(Number, Change),
    Entry(List, u32),
    Pivot(usize, usize),
}

const FAULTS: usize = 135;

impl Fault {
    // Every number with every change, the first entry of every list with three numbers, and pivots that fail at the first and at the second position.
    // kept: a fault by its number, for to go over each sort of fault takes loops of its own, and a function has one.
    fn nth(k: usize) -> Fault {
        match k {
            0..112 => Fault::Number(Number::ALL[k % 14], Change::ALL[k / 14 % 8]),
            112..127 => Fault::Entry(List::ALL[k % 5], ENTRIES[k % 3 * 7]),
            _ => Fault::Pivot(k % 2, k % 8 + 4),
        }
    }

    fn put(self, f: &Filling) -> Filling {
        match self {
            Fault::Number(number, change) => {
                let x = change.of(f.number(number), f.number(Number::Nodes));
                f.with_number(number, x)
            }
            Fault::Entry(list, x) => with_entry(f, list, 0, x),
            Fault::Pivot(j, special) => f.with_special(j, special),
        }
    }
}

// Each fault as a second one.
fn every_second(c: &mut Counts, f: &Filling) {
    for k in 0..FAULTS {
        try_filling(c, &Fault::nth(k).put(f));
    }
}

// Each two faults, in either order, and each alone, which is it twice.
pub(crate) fn every_two(c: &mut Counts, f: &Filling) {
    for k in 0..FAULTS {
        every_second(c, &Fault::nth(k).put(f));
    }
}

// Two unknowns, a buffer of no values, or a pivot that fails, as a second fault, or an order that is longer than needed, which is none.
const SECONDS: [Fault; 4] = [
    Fault::Number(Number::Unknowns, Change::More),
    Fault::Number(Number::Diagonal, Change::Zero),
    Fault::Pivot(0, 10),
    Fault::Number(Number::Order, Change::More),
];

fn every_second_of_four(c: &mut Counts, f: &Filling) {
    for second in SECONDS {
        try_filling(c, &second.put(f));
    }
}

// Each list with another entry.
fn every_list(c: &mut Counts, f: &Filling, i: usize, x: u32) {
    for list in List::ALL {
        every_second_of_four(c, &with_entry(f, list, i, x));
    }
}

// Each number in entry i of each list.
fn every_number(c: &mut Counts, f: &Filling, i: usize) {
    for x in ENTRIES {
        every_list(c, f, i, x);
    }
}

// Each number in each of the first 40 entries of each list, with each of four second faults.
pub(crate) fn every_entry(c: &mut Counts, f: &Filling) {
    for i in 0..40usize {
        every_number(c, f, i);
    }
}

// Each special value at each position; and read at every pair of positions below 27, in either order.
// kept: one number for value and position, for a function has one loop.
pub(crate) fn every_pivot(c: &mut Counts, f: &Filling) {
    for k in 0..768usize {
        try_filling(c, &f.with_special(k / 12, k % 12).asking(k / 27, k % 27));
    }
}
