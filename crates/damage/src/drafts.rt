// Drafts damaged in many ways, each written by the writer and by the naive one, and (where n and p are at most 64 and s at most 2,016, and not for
// lengths and rooms) its file read by the readers.
use crate::borders::borders;
use crate::cells::{Cells, with_cells};
use crate::counts::{Counts, DRAWN_DRAFTS};
use crate::draft::{Draft, Field, Lent};
use crate::drawn::drawn_draft;
use crate::trials::{try_file, try_writing};
use meshes::{draw, less};

// A draft written, with room and without, and, where it is small enough, its file read.
pub(crate) fn try_both(c: &mut Counts, d: &Draft) {
    try_writing(c, d);
    try_writing(c, &d.with_length(Lent::Room, 0));
    if d.n <= 64 && d.p <= 64 && d.s <= 2016 {
        try_file(c, &d.encoded(2));
    }
}

fn every_border(c: &mut Counts, d: &Draft, field: Field, i: usize) {
    for x in borders(d.entry(field, i), d.n, d.p, d.s) {
        try_both(c, &d.with_entry(field, i, x));
    }
}

fn every_entry_of(c: &mut Counts, d: &Draft, field: Field) {
    for i in 0..d.entries(field) {
        every_border(c, d, field, i);
    }
}

// Every border in each entry of each list, and in n, p, s and the unknowns.
pub(crate) fn every_entry(c: &mut Counts, d: &Draft) {
    for field in Field::ALL {
        every_entry_of(c, d, field);
    }
}

// A list, or the room, just long enough, too short by one, and empty.
pub(crate) fn every_length(c: &mut Counts, d: &Draft) {
    for lent in Lent::ALL {
        let k = d.enough(lent);
        try_writing(c, &d.with_length(lent, k));
        try_writing(c, &d.with_length(lent, less(k)));
        try_writing(c, &d.with_length(lent, 0));
    }
}

// Every room for the bytes up to what is needed.
pub(crate) fn every_room(c: &mut Counts, d: &Draft) {
    for room in 0..d.enough(Lent::Room) % 65536 + 1 {
        try_writing(c, &d.with_length(Lent::Room, room));
    }
}

// A slot more, or one less, in each row of column j.
fn every_slot_of(c: &mut Counts, d: &Draft, j: usize) {
    for i in 0..d.n {
        try_both(c, &with_cells(*d, &Cells::of(d).toggled(j, i)));
    }
}

pub(crate) fn every_slot(c: &mut Counts, d: &Draft) {
    for j in 0..d.n {
        every_slot_of(c, d, j);
    }
}

// The draft, for some seeds with a list, or the room, that is too short.
fn drawn_short(d: &Draft, seed: u64) -> Draft {
    match Lent::ALL.get(draw(seed, 0, 15, 40)) {
        Some(lent) => d.with_length(*lent, less(d.enough(*lent))),
        None => *d,
    }
}

// Drafts that no planner made, and their files of version 1.
pub(crate) fn all_drawn(c: &mut Counts) {
    for seed in 0..3000u64 {
        let d = drawn_draft(seed);
        c.begin(DRAWN_DRAFTS, seed);
        try_both(c, &drawn_short(&d, seed));
        try_file(c, &d.encoded(1));
    }
}
