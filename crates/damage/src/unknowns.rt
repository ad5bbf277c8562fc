// Numbers of unknowns, allowed and refused, beside faults that other checks name: in files of every version, cut and whole, and lent to the writer.
use crate::counts::Counts;
use crate::draft::{Draft, Field, Lent};
use crate::file::{File, N, UNKNOWNS, VERSION};
use crate::trials::{try_file, try_refused, try_writing};
use meshes::{REFUSED_UNKNOWNS, allowed_unknowns, refused_unknowns};
use plan::Refusal;

// How many numbers of unknowns are tried: the six allowed ones, and those that are refused.
const NUMBERS: u64 = REFUSED_UNKNOWNS + 6;

fn number(k: u64) -> usize {
    if k < REFUSED_UNKNOWNS {
        return refused_unknowns(k);
    }
    allowed_unknowns(k)
}

// A file as it is, and cut around the 17 and the 19 bytes that a version asks for.
fn every_cut(c: &mut Counts, f: &File) {
    try_file(c, f);
    for length in 16..21usize {
        try_file(c, &f.cut(length));
    }
}

// Each number of unknowns in a version 2 file, with its n and without.
fn every_number(c: &mut Counts, f: &File) {
    for k in 0..NUMBERS {
        let g = f.with_field(UNKNOWNS, number(k));
        every_cut(c, &g);
        every_cut(c, &g.with_field(N, 0));
    }
}

// The versions 1 and 2, and those next to them, in a version 2 file, with each number of unknowns.
fn every_version(c: &mut Counts, f: &File) {
    for version in 0..4usize {
        every_number(c, &f.with_field(VERSION, version));
    }
}

// The refusal of a version 1 file of n nodes whose version is set to 2: its n is then its unknowns, and its parts are the high bits of n.
fn set_to_2(n: usize) -> Refusal {
    if 6 < n {
        Refusal::Unknowns
    } else {
        Refusal::Header
    }
}

// The draft's files with the other's version.
fn every_exchange(c: &mut Counts, d: &Draft) {
    try_refused(c, &d.encoded(2).with_field(VERSION, 1), Refusal::Header);
    try_refused(c, &d.encoded(1).with_field(VERSION, 2), set_to_2(d.n));
}

// A version 2 file without unknowns and nodes: one of 18 bytes is too short, and one of 19 has a number that is refused before its n.
fn every_empty(c: &mut Counts, f: &File) {
    let g = f.with_field(UNKNOWNS, 0).with_field(N, 0);
    try_refused(c, &g.cut(18), Refusal::TooFewBytes);
    try_refused(c, &g.cut(19), Refusal::Unknowns);
}

// A draft with a list, or the room, without an entry: faults that a later check names.
fn every_missing(c: &mut Counts, d: &Draft) {
    for lent in Lent::ALL {
        try_writing(c, &d.with_length(lent, 0));
    }
}

// A draft with a wrong number in a list or for n, p or s.
fn every_wrong(c: &mut Counts, d: &Draft) {
    for field in Field::ALL.iter().take(8) {
        try_writing(c, &d.with_entry(*field, 0, 65534));
    }
}

// Each number of unknowns lent to the writer, with each fault and without.
fn every_lent(c: &mut Counts, d: &Draft) {
    for k in 0..NUMBERS {
        let e = d.with_entry(Field::Unknowns, 0, number(k));
        every_missing(c, &e);
        every_wrong(c, &e);
        try_writing(c, &e);
    }
}

// All of these, for the plan of a mesh.
pub(crate) fn every(c: &mut Counts, d: &Draft) {
    let f = d.encoded(2);
    every_version(c, &f);
    every_empty(c, &f);
    every_exchange(c, d);
    every_lent(c, d);
}
