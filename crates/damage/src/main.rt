// Plans written, read, damaged and asked about, in files of both versions: counts the answers, and where the proved code and `naive`, which is
// written apart from it, differ in an answer or in any entry of a lent buffer, or where the workshop that never updates answers as it must not.
// Cost: a fixed run; every function is polynomial in 64 and in the lengths of what it is lent.
#![tactic(auto)]

mod borders;
mod cells;
mod counts;
mod draft;
mod drafts;
mod drawn;
mod file;
mod files;
mod held;
mod layouts;
mod slots;
mod trees;
mod trials;
mod two_rows;
mod unknowns;

use crate::counts::{Counts, DRAWN_MESHES, GIVEN};
use crate::draft::Draft;
use crate::drawn::full_draft;
use crate::file::{File, order_at};
use crate::held::{ENOUGH, planned, read};
use crate::trials::{try_file, try_writing};
use meshes::{Case, Held, allowed_unknowns, from_edges};
use plan::Plan;
use std::io;

// A plan written, read into results that are longer than needed, and written again.
fn round_trip(c: &mut Counts, h: &Held) {
    let d = Draft::from(*h);
    let w = d.write();
    let f = w.file();
    let k = read(&f, ENOUGH);
    try_writing(c, &d);
    try_file(c, &f);
    c.returned(w.answer.is_ok() && *h == k && w == Draft::from(k).write());
}

// A plan's file of version 1, which is read as the plan with one unknown.
fn version_1_trip(c: &mut Counts, h: &Held) {
    let f = Draft::from(*h).encoded(1);
    try_file(c, &f);
    let answer = h.answer.map(|plan| Plan {
        unknowns: 1,
        ..plan
    });
    c.returned(read(&f, ENOUGH) == Held { answer, ..*h });
}

// A plan's files of both versions.
fn both_trips(c: &mut Counts, h: &Held) {
    round_trip(c, h);
    version_1_trip(c, h);
}

// Damages to a file. (It is the naive writer's, which the round trip has compared.)
fn every_file(c: &mut Counts, f: &File) {
    files::every_field(c, f);
    files::every_number(c, f);
    files::every_swap(c, f);
    files::every_move(c, f);
    files::every_length(c, f);
    files::every_short(c, f);
    files::every_rows_length(c, f);
}

// Damages to lists that are written, and questions over them.
fn every_draft(c: &mut Counts, d: &Draft) {
    drafts::every_length(c, d);
    drafts::every_room(c, d);
    drafts::every_slot(c, d);
    drafts::every_entry(c, d);
    layouts::every_question(c, d);
}

// Damages to two rows of a plan.
fn every_two_rows(c: &mut Counts, d: &Draft) {
    two_rows::every_two_changed(c, d);
    two_rows::every_two_more(c, d);
}

// A file tried with every damage, with every value of every byte, and with draws of two damages.
fn small_file(c: &mut Counts, f: &File) {
    every_file(c, f);
    files::every_byte(c, f, f.length);
    files::drawn_pairs(c, f, 0, 500);
}

// A mesh's plan, whose files come back, and are tried with numbers of unknowns.
fn begun(c: &mut Counts, number: u64, m: &Case) -> Draft {
    let h = planned(allowed_unknowns(number), m);
    let d = Draft::from(h);
    c.begin(GIVEN, number);
    both_trips(c, &h);
    unknowns::every(c, &d);
    d
}

// A mesh whose files of both versions are tried so.
fn small(c: &mut Counts, number: u64, m: &Case) {
    let d = begun(c, number, m);
    small_file(c, &d.encoded(2));
    small_file(c, &d.encoded(1));
    every_draft(c, &d);
    every_two_rows(c, &d);
}

// A mesh whose file is tried with every damage, and with every value of every byte before the order; that of version 1 with draws of two damages.
fn middling(c: &mut Counts, number: u64, m: &Case) -> Draft {
    let d = begun(c, number, m);
    let f = d.encoded(2);
    every_file(c, &f);
    files::every_byte(c, &f, order_at(2));
    files::drawn_pairs(c, &f, 1000, 1000);
    files::drawn_pairs(c, &d.encoded(1), 1000, 1000);
    every_draft(c, &d);
    d
}

// A middling mesh whose plan is tried with damages to two rows too.
fn two_rows_too(c: &mut Counts, number: u64, m: &Case) {
    let d = middling(c, number, m);
    every_two_rows(c, &d);
}

// Single nodes, an edge, a path, a triangle, a ring, a star and a longer path.
fn all_small(c: &mut Counts) {
    small(c, 1, &from_edges(1, &[]));
    small(c, 2, &from_edges(2, &[]));
    small(c, 3, &from_edges(2, &[0, 1]));
    small(c, 4, &from_edges(3, &[0, 1, 1, 2]));
    small(c, 5, &from_edges(3, &[0, 1, 0, 2, 1, 2]));
    small(c, 6, &from_edges(4, &[0, 1, 1, 2, 2, 3, 0, 3]));
    small(c, 7, &from_edges(4, &[0, 1, 0, 2, 0, 3]));
    small(c, 8, &from_edges(5, &[0, 1, 1, 2, 2, 3, 3, 4]));
}

// A path, a mesh of four regions, and a grid of three by four nodes.
fn all_middling(c: &mut Counts) {
    let path = from_edges(7, &[0, 1, 1, 2, 2, 3, 3, 4, 4, 5, 5, 6]);
    let regions = from_edges(9, &[0, 4, 4, 8, 1, 3, 3, 5, 1, 5, 2, 6]);
    let grid = from_edges(
        12,
        b"\x00\x01\x01\x02\x03\x04\x04\x05\x06\x07\x07\x08\x09\x0a\x0a\x0b\x00\x03\x03\x06\x06\x09\x01\x04\x04\x07\x07\x0a\x02\x05\x05\x08\x08\x0b",
    );
    two_rows_too(c, 9, &path);
    two_rows_too(c, 10, &regions);
    middling(c, 11, &grid);
}

// A file read as it is, and with draws of two damages.
fn full_file(c: &mut Counts, f: &File) {
    try_file(c, f);
    files::drawn_pairs(c, f, 3000, 100);
}

// A plan of one part with every slot. That of more than 27 nodes is no mesh's, and is written, read and asked about all the same.
fn full(c: &mut Counts, number: u64, n: usize) {
    let d = full_draft(allowed_unknowns(number), n);
    c.begin(GIVEN, number);
    try_writing(c, &d);
    full_file(c, &d.encoded(2));
    full_file(c, &d.encoded(1));
    layouts::ask_layout(c, &d);
}

fn all_full(c: &mut Counts) {
    full(c, 12, 27);
    full(c, 13, 28);
    full(c, 14, 64);
}

// A mesh of at most 64 nodes that the seed draws. One with a list that is too long has no plan.
fn drawn_mesh(c: &mut Counts, seed: u64) {
    let h = planned(allowed_unknowns(seed), &meshes::drawn(seed));
    c.begin(DRAWN_MESHES, seed);
    if let Err(refusal) = h.answer {
        return c.refused(refusal);
    }
    let d = Draft::from(h);
    let first = seed % 65536 * 16;
    both_trips(c, &h);
    files::drawn_pairs(c, &d.encoded(2), first, 16);
    files::drawn_pairs(c, &d.encoded(1), first, 16);
}

fn all_drawn(c: &mut Counts) {
    for seed in 0..250u64 {
        drawn_mesh(c, seed);
    }
}

fn main(rt: HostRuntime) -> io::Result<()> {
    let mut c = Counts::new();
    all_small(&mut c);
    all_middling(&mut c);
    all_full(&mut c);
    all_drawn(&mut c);
    drafts::all_drawn(&mut c);
    layouts::all_drawn(&mut c);
    trees::all(&mut c);
    c.print(&rt)
}
