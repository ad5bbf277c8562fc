// Files damaged in many ways, each read by the readers.
use crate::borders::{LONG, SHORT, borders};
use crate::counts::Counts;
use crate::file::{File, N, P, S, order_at, order_field};
use crate::trials::{try_file, try_lent};
use meshes::{draw, less};
use naive::Room;

// Every value of a byte.
fn every_value(c: &mut Counts, f: &File, at: usize) {
    for x in 0..256usize {
        try_file(c, &f.with_byte(at, x));
    }
}

// Every value of each of the first bytes.
pub(crate) fn every_byte(c: &mut Counts, f: &File, end: usize) {
    for at in 0..end {
        every_value(c, f, at);
    }
}

// The borders of field k.
fn borders_of(f: &File, k: usize) -> [usize; LONG] {
    borders(f.field(k), f.field(N), f.field(P), f.field(S))
}

fn every_border(c: &mut Counts, f: &File, k: usize) {
    for x in borders_of(f, k).iter().take(SHORT) {
        try_file(c, &f.with_field(k, *x));
    }
}

// Every border in each field.
pub(crate) fn every_field(c: &mut Counts, f: &File) {
    for k in 0..f.fields() {
        every_border(c, f, k);
    }
}

// Every border in n, p or s, the file's length as it was and, where not too long, as it is then asked for (else the same file again).
fn every_long_border(c: &mut Counts, f: &File, k: usize) {
    for x in borders_of(f, k) {
        let g = f.with_field(k, x);
        try_file(c, &g);
        try_file(c, &g.fitted());
    }
}

pub(crate) fn every_number(c: &mut Counts, f: &File) {
    for k in [N, P, S] {
        every_long_border(c, f, k);
    }
}

// Every shorter length, and up to four bytes more.
pub(crate) fn every_length(c: &mut Counts, f: &File) {
    for length in 0..f.length % 65536 + 5 {
        try_file(c, &f.cut(length));
    }
}

// Field k and each field before it, each with the other's number.
fn every_swap_with(c: &mut Counts, f: &File, k: usize) {
    for m in 0..k {
        try_file(c, &f.swapped(k, m));
    }
}

pub(crate) fn every_swap(c: &mut Counts, f: &File) {
    for k in 0..f.fields() {
        every_swap_with(c, f, k);
    }
}

// Field k with more and each field with as much less: by one, so that their sum stays, and by one more than there is, so that it stays when cut to
// two bytes.
fn every_move_to(c: &mut Counts, f: &File, k: usize) {
    for m in 0..f.fields() {
        try_file(c, &f.moved(k, m, 1));
        try_file(c, &f.moved(k, m, f.field(m) % 65536 + 1));
    }
}

pub(crate) fn every_move(c: &mut Counts, f: &File) {
    for k in 0..f.fields() {
        every_move_to(c, f, k);
    }
}

// A length of `enough`, one less where `mask` has the bit.
fn short_by(enough: usize, mask: u8, bit: u8) -> usize {
    if mask & bit == 0 {
        enough
    } else {
        less(enough)
    }
}

// Results just long enough for the file's n and s, those that `mask` tells one entry too short.
fn short_room(f: &File, mask: u8) -> Room {
    let n = f.field(N);
    Room {
        order: short_by(n, mask, 1),
        positions: short_by(n, mask, 2),
        sizes: short_by(n, mask, 4),
        parents: short_by(n, mask, 8),
        column_starts: short_by(n % 65536 + 1, mask, 16),
        rows: short_by(f.field(S), mask, 32),
    }
}

// Results too short by one, every choice of them.
pub(crate) fn every_short(c: &mut Counts, f: &File) {
    for mask in 0..64u8 {
        try_lent(c, f, short_room(f, mask));
    }
}

// Results just long enough, and rows of every shorter length.
pub(crate) fn every_rows_length(c: &mut Counts, f: &File) {
    let enough = short_room(f, 0);
    for rows in 0..f.field(S) % 65536 {
        try_lent(c, f, Room { rows, ..enough });
    }
}

// A file with a field at a border, which the seed draws, from field `first` on.
fn drawn_border(f: &File, seed: u64, what: usize, first: usize) -> File {
    let behind = f.fields().saturating_sub(first);
    let k = first % 8192 + draw(seed, what, 6, behind) % 8192;
    with_drawn(f, k, draw(seed, what, 7, LONG))
}

// The file with border b in field k.
fn with_drawn(f: &File, k: usize, b: usize) -> File {
    f.with_field(k, borders_of(f, k)[b % LONG])
}

// A file with another byte, which the seed draws, every second time among those before the order.
fn drawn_byte(f: &File, seed: u64, what: usize) -> File {
    let end = if draw(seed, what, 13, 2) == 0 {
        order_at(f.version)
    } else {
        f.length
    };
    f.with_byte(draw(seed, what, 14, end), draw(seed, what, 12, 256))
}

// Two damages that the seed draws: to a number and a field behind it, to two fields, to two bytes, to two fields behind the numbers.
fn drawn_damage(f: &File, seed: u64) -> File {
    let order = usize::from(order_field(f.version));
    match draw(seed, 0, 8, 5) {
        0 => {
            let k = N + draw(seed, 1, 8, 3) % 3;
            let g = with_drawn(f, k, draw(seed, 2, 8, LONG)).fitted();
            drawn_border(&g, seed, 3, order)
        }
        1 => drawn_border(&drawn_border(f, seed, 4, 0), seed, 5, 0),
        2 => drawn_byte(&drawn_byte(f, seed, 4), seed, 5),
        _ => drawn_border(&drawn_border(f, seed, 4, order), seed, 5, order),
    }
}

// One draw in sixteen has another length too.
fn drawn_cut(f: File, seed: u64) -> File {
    if draw(seed, 8, 8, 16) == 0 {
        return f.cut(draw(seed, 9, 8, f.length % 65536 + 4));
    }
    f
}

// One draw in four lends results of which some are too short.
fn drawn_mask(seed: u64) -> u8 {
    if draw(seed, 6, 8, 4) == 0 {
        return (draw(seed, 7, 8, 64) % 64) as u8;
    }
    0
}

// So many draws of two damages.
pub(crate) fn drawn_pairs(c: &mut Counts, f: &File, first: u64, count: u64) {
    for seed in first..first.saturating_add(count) {
        let g = drawn_cut(drawn_damage(f, seed), seed);
        try_lent(c, &g, short_room(&g, drawn_mask(seed)));
    }
}
