// Factors, solves and reads some 300,000 fillings of plans with the library and with `naive`, which is written apart from it: counts the answers, and
// the fillings on which they differ in an answer, in the report or in a bit of a buffer or of the vector.
// Cost: a fixed run; every function is polynomial in 64 and in the lengths of what it is lent.
#![tactic(auto)]

mod counts;
mod faults;
mod filling;
mod solution;
mod trial;
mod values;

use crate::counts::Counts;
use crate::filling::{Filling, planned};
use crate::trial::try_filling;
use crate::values::Kind;
use meshes::Case;
use std::io;

// Values of each kind, in lists that are longer than needed and in such as are just long enough.
fn every_kind(c: &mut Counts, f: &Filling, seed: u64) {
    for kind in Kind::ALL {
        let g = f.with_values(kind, seed);
        try_filling(c, &g);
        try_filling(c, &g.tight());
    }
}

// Sound values with each damage, and slots of zero, whose pivots are the diagonal's values, with each special pivot.
fn every_fault(c: &mut Counts, f: &Filling, seed: u64) {
    let g = f.with_values(Kind::Sound, seed).tight();
    faults::every_two(c, &g);
    faults::every_entry(c, &g);
    faults::every_pivot(c, &g);
    faults::every_pivot(c, &f.with_values(Kind::Zeros, seed));
}

// How many of the meshes have plans that are damaged: single nodes, an edge, a ring, document 01's mesh 4, which is a path of five nodes, and three of
// 9 to 12 nodes in five to seven parts.
const DAMAGED: u64 = 8;

// Behind them come every mesh of five nodes, and those that seeds draw.
fn mesh(number: u64) -> Case {
    match number {
        0 => meshes::numbered(1, 0),
        1 => meshes::numbered(2, 0),
        2 => meshes::numbered(2, 1),
        3 => meshes::numbered(4, 45),
        4 => meshes::numbered(5, 549),
        5 => meshes::drawn(234),
        6 => meshes::drawn(16),
        7 => meshes::drawn(94),
        8..1032 => meshes::numbered(5, number % 1024),
        _ => meshes::drawn(number),
    }
}

fn every_mesh(c: &mut Counts) {
    for number in 0..1332u64 {
        let f = planned(&mesh(number));
        every_kind(c, &f, number);
        if number < DAMAGED {
            every_fault(c, &f, number);
        }
    }
}

fn main(rt: HostRuntime) -> io::Result<()> {
    let mut c = Counts::new();
    every_mesh(&mut c);
    c.print(&rt)
}
