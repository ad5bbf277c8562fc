// Sound meshes made unsound, or lent with results that are too short.
// kept: damages are numbers, for seeds draw them: enums would stand between a draw and one `match` on it, each with a table of its own.
use crate::lent::{Case, Lengths, entry, start, with_entry, with_start};
use crate::numbers::{less, more};
use crate::random::draw;
use crate::relisted::relisted;
use plan::Plan;

// A wrong number of nodes, of starts or of entries, or a wrong start.
fn damage_starts(c: Case, what: usize, seed: u64) -> Case {
    let mut d = c;
    let v = draw(seed, 0, 5, d.n);
    match what {
        0 => d.n = 0,
        1 => d.n = Plan::NODES + 1 + draw(seed, 1, 5, 3) % 4,
        2 => d.n = d.n % 65536 + 65536,
        3 => d.start_count = less(d.start_count),
        4 => d.start_count = more(d.start_count),
        5 => d = with_start(d, 0, 1),
        6 => d = with_start(d, v, more(start(d, more(v)))),
        7 => d = with_start(d, v, 4294967295),
        8 => d.entry_count = less(d.entry_count),
        _ => d.entry_count = more(d.entry_count),
    }
    d
}

// The node in whose list entry e stands.
fn owner(c: Case, e: usize) -> usize {
    let mut ends = c.starts.iter().skip(1).take(64);
    ends.position(|end| e < *end as usize).unwrap_or(64)
}

// Entries e and e + 1 in the other order.
fn swapped(c: Case, e: usize) -> Case {
    let first = entry(c, e);
    let second = entry(c, more(e));
    with_entry(with_entry(c, e, second), more(e), first)
}

// The entries without entry e.
fn entries_without(c: Case, e: usize) -> [u16; 4096] {
    let mut neighbours = c.neighbours;
    if e < 4095 {
        neighbours[e..4095].copy_from_slice(&c.neighbours[e + 1..]);
    }
    neighbours
}

// The starts where v's list has an entry less.
fn starts_without(c: Case, v: usize) -> [u32; 72] {
    let mut starts = c.starts;
    for start in starts.iter_mut().skip(more(v)) {
        *start = start.saturating_sub(1);
    }
    starts
}

// The mesh without entry e of v's list.
fn dropped(c: Case, e: usize, v: usize) -> Case {
    let mut d = c;
    let starts = starts_without(c, v);
    let neighbours = entries_without(c, e);
    d.starts = starts;
    d.neighbours = neighbours;
    d.entry_count = less(c.entry_count);
    d
}

// A wrong entry.
fn damage_entry(c: Case, what: usize, seed: u64) -> Case {
    let e = draw(seed, 2, 5, c.entry_count);
    let v = owner(c, e);
    match what {
        0 => with_entry(c, e, c.n),
        1 => with_entry(c, e, 65535),
        2 => with_entry(c, e, v),
        3 => with_entry(c, e, entry(c, less(e))),
        4 => with_entry(c, e, draw(seed, 3, 5, c.n)),
        5 => swapped(c, e),
        _ => dropped(c, e, v),
    }
}

// A node with a list of other nodes, of about as many entries as are allowed; for some draws one of them is wrong too.
fn damage_list(c: Case, what: usize, seed: u64) -> Case {
    let v = draw(seed, 8, 5, c.n);
    let count = Plan::NEIGHBOURS - 1 + draw(seed, 9, 5, 4) % 4;
    let first = draw(seed, 10, 5, c.n.saturating_sub(count));
    let d = relisted(c, v, first, count);
    let e = start(d, v) % 4096 + draw(seed, 11, 5, count) % 64;
    match what {
        0 => with_entry(d, e, d.n),
        1 => with_entry(d, e, v),
        2 => swapped(d, e),
        _ => d,
    }
}

// A result of another length.
fn damage_lengths(l: Lengths, n: usize, what: usize) -> Lengths {
    let mut d = l;
    match what {
        0 => d.order = less(n),
        1 => d.positions = less(n),
        2 => d.sizes = less(n),
        3 => d.parents = less(n),
        4 => d.column_starts = n,
        5 => d.rows_more = 0,
        6 => d.rows_less = more(d.rows_more),
        _ => d.rows_less = 65536,
    }
    d
}

fn damage_results(c: Case, what: usize) -> Case {
    let mut d = c;
    d.lengths = damage_lengths(c.lengths, c.n, what);
    d
}

// A case with one damage, which the seed draws. A list that is too long needs nodes enough for its entries.
pub fn damaged(c: Case, seed: u64) -> Case {
    if Plan::NEIGHBOURS < c.n && draw(seed, 12, 5, 4) == 0 {
        return damage_list(c, draw(seed, 13, 5, 8), seed);
    }
    match draw(seed, 4, 5, 3) {
        0 => damage_starts(c, draw(seed, 5, 5, 10), seed),
        1 => damage_entry(c, draw(seed, 6, 5, 7), seed),
        _ => damage_results(c, draw(seed, 7, 5, 8)),
    }
}
