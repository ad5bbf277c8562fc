// Drafts with parts, parents and slots that no planner has chosen: of at most eight nodes that a seed draws, and with every slot.
use crate::cells::{Cells, with_cells};
use crate::draft::{Draft, LENGTHS};
use meshes::{Buffers, allowed_unknowns, draw, less, more};

// A slot with a chance of three to eight tenths.
fn drawn_slot(seed: u64, n: usize, j: usize, i: usize) -> bool {
    j < i && i < n && draw(seed, j, i, 10) < 3 + draw(seed, 0, 9, 6) % 8
}

// Joins the rows of column j to its first row.
fn close_column(cells: &mut Cells, j: usize) {
    let Some(first) = cells.first_row(j) else {
        return;
    };
    for i in more(first)..64 {
        if cells.has(j, i) {
            cells.put(first, i, true);
        }
    }
}

// All that elimination adds in the first eight columns.
fn close(cells: &mut Cells) {
    for j in 0..8usize {
        close_column(cells, j);
    }
}

// The slots that a seed draws. Two draws in three have all that elimination adds.
fn drawn_cells(seed: u64, n: usize) -> Cells {
    let mut cells = Cells::by_rule(|j, i| drawn_slot(seed, n, j, i));
    if draw(seed, 1, 9, 3) != 0 {
        close(&mut cells);
    }
    cells
}

// One position more: in the part at hand, or in a new one.
fn add_position(d: &mut Draft, fresh: bool) {
    if fresh && d.p < 8 {
        d.lists.sizes[d.p] = 1;
        d.p += 1;
    } else if !fresh && d.p < 9 {
        let last = less(d.p);
        d.lists.sizes[last] = d.lists.sizes[last] % 4096 + 1;
    }
}

// Parts of sizes that the seed draws, for at most eight positions; one draw in four has a single part.
fn with_sizes(mut d: Draft, seed: u64) -> Draft {
    let chance = draw(seed, 2, 9, 4);
    for j in 0..d.n.min(8) {
        add_position(&mut d, j == 0 || draw(seed, j, 10, 4) < chance);
    }
    d
}

// A later part, below p.
fn later(seed: u64, p: usize, k: usize) -> usize {
    if k < p {
        return k % 8 + 1 + draw(seed, k, 11, p - k - 1) % 8;
    }
    65535
}

// The parent of part k: by the kind none, the next part, or one that the seed draws.
// kept: the kind is a number, for a seed draws it, and it is told apart here alone.
fn drawn_parent(seed: u64, kind: usize, p: usize, k: usize) -> usize {
    if p <= k % 8 + 1 || kind == 0 {
        return 65535;
    }
    if kind < 3 {
        return k % 8 + 1;
    }
    later(seed, p, k % 8)
}

fn with_parents(mut d: Draft, seed: u64) -> Draft {
    let kind = draw(seed, 3, 9, 6);
    let p = d.p.min(8);
    for (k, parent) in d.lists.parents.iter_mut().enumerate().take(p) {
        *parent = (drawn_parent(seed, kind, p, k) % 65536) as u16;
    }
    d
}

// The nodes in turn, at most eight, the first one drawn.
fn with_order(mut d: Draft, seed: u64) -> Draft {
    let n = d.n.clamp(1, 8);
    let first = draw(seed, 4, 9, 8) % 8;
    for (i, node) in d.lists.order.iter_mut().enumerate().take(n) {
        *node = ((i % 8 + first) % n) as u16;
    }
    d
}

// A draft of n nodes, each with so many unknowns, without parts and slots.
pub(crate) fn empty(unknowns: usize, n: usize) -> Draft {
    Draft {
        unknowns,
        n,
        p: 0,
        s: 0,
        lists: Buffers::new(),
        lengths: LENGTHS,
    }
}

// The nodes in their order, in one part.
fn in_one_part(mut d: Draft) -> Draft {
    let n = d.n.min(64);
    for (i, node) in d.lists.order.iter_mut().enumerate().take(n) {
        *node = (i % 64) as u16;
    }
    d.p = 1;
    d.lists.sizes[0] = (d.n % 65536) as u16;
    d.lists.parents[0] = 65535;
    d
}

// A draft of n nodes, at most 64, each with so many unknowns, in one part with every slot.
pub(crate) fn full_draft(unknowns: usize, n: usize) -> Draft {
    let cells = Cells::by_rule(|j, i| j < i && i < n);
    with_cells(in_one_part(empty(unknowns, n)), &cells)
}

pub(crate) fn drawn_draft(seed: u64) -> Draft {
    let n = 1 + draw(seed, 5, 9, 8) % 8;
    let d = with_order(empty(allowed_unknowns(seed), n), seed);
    with_cells(
        with_parents(with_sizes(d, seed), seed),
        &drawn_cells(seed, n),
    )
}
