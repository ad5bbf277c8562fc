// The kinds of meshes.
use crate::graph::{join_within, lists};
use crate::lent::{Case, Lengths};
use crate::random::draw;
use plan::Plan;

// A kind of mesh of n nodes. `width` is that of a grid, a band or a block, and for dense random meshes one less than the chance of an edge in tenths.
// Edges that would give a node more than `most` neighbours are left out.
// kept: kinds are numbers, for seeds draw them: enums would stand between a draw and one `match` on it, each with a table of its own.
#[derive(Clone, Copy)]
struct Shape {
    seed: u64,
    kind: usize,
    n: u8,
    width: u8,
    most: usize,
}

fn remainder(v: u8, width: u8) -> u8 {
    v.checked_rem(width).unwrap_or(0)
}

fn quotient(v: u8, width: u8) -> u8 {
    v.checked_div(width).unwrap_or(0)
}

// Whether v + d follows v in its row of a grid, or stands below it, or, with diagonals, below and one to the right.
fn in_grid(v: u8, d: u8, width: u8, diagonals: bool) -> bool {
    if d == width {
        return true;
    }
    if remainder(v, width) as usize + 1 == width as usize {
        return false;
    }
    d == 1 || diagonals && d as usize == width as usize + 1
}

// Whether v and w, which is greater, are joined.
fn simple_edge(s: Shape, kind: usize, v: u8, w: u8) -> bool {
    if w <= v {
        return false;
    }
    let d = w - v;
    match kind {
        0 => false,
        1 => true,
        2 => d == 1,
        3 => d == 1 || v == 0 && w as usize + 1 == s.n as usize,
        4 => v == 0,
        5 => draw(s.seed, w as usize, 0, w as usize) == v as usize,
        6 => in_grid(v, d, s.width, false),
        7 => in_grid(v, d, s.width, true),
        8 => draw(s.seed, v as usize, w as usize, s.n as usize) < 2,
        9 => draw(s.seed, v as usize, w as usize, 10) <= s.width as usize,
        10 => d <= s.width && draw(s.seed, v as usize, w as usize, 2) == 0,
        _ => d == 1 || v == 0,
    }
}

// A union of blocks, each of a kind of its own, or one of the simple kinds.
fn edge(s: Shape, v: u8, w: u8) -> bool {
    if s.kind < 12 {
        return simple_edge(s, s.kind, v, w);
    }
    let block = quotient(v, s.width);
    if quotient(w, s.width) != block {
        return false;
    }
    let kind = draw(s.seed, block as usize, 1, 12);
    simple_edge(s, kind, remainder(v, s.width), remainder(w, s.width))
}

// Where the number i goes among those before it; one seed in five leaves them in their order.
fn slot(seed: u64, i: u8) -> usize {
    if draw(seed, 0, 2, 5) == 0 {
        return i as usize;
    }
    draw(seed, i as usize, 2, i as usize + 1)
}

// The numbers below n, each once, in an order drawn from the seed.
fn labels(seed: u64, n: u8) -> [u8; 64] {
    let mut l = [0u8; 64];
    for i in 0..n.min(64) {
        let j = slot(seed, i) % 64;
        l[i as usize] = l[j];
        l[j] = i;
    }
    l
}

// Joins v to those after it.
fn join_later(cells: &mut [u8; 4096], s: Shape, l: &[u8; 64], v: u8) {
    for w in 0..s.n {
        if edge(s, v, w) {
            join_within(cells, s.most, label(l, v), label(l, w));
        }
    }
}

fn label(l: &[u8; 64], v: u8) -> u8 {
    l.get(usize::from(v)).copied().unwrap_or(0)
}

fn mesh(s: Shape, l: &[u8; 64]) -> Case {
    let mut cells = [0u8; 4096];
    for v in 0..s.n {
        join_later(&mut cells, s, l, v);
    }
    lists(s.n, &cells)
}

// A length up to three more than x.
fn longer(x: usize, seed: u64, what: usize) -> usize {
    x % 65536 + draw(seed, what, 3, 4) % 4
}

// Lengths up to three more than needed.
fn with_room(l: Lengths, seed: u64) -> Lengths {
    Lengths {
        order: longer(l.order, seed, 0),
        positions: longer(l.positions, seed, 1),
        sizes: longer(l.sizes, seed, 2),
        parents: longer(l.parents, seed, 3),
        column_starts: longer(l.column_starts, seed, 4),
        rows_more: longer(l.rows_more, seed, 5),
        rows_less: 0,
    }
}

// The most neighbours of a node: as many as are allowed, for one seed in eight one more, and for two any number.
fn most_neighbours(seed: u64) -> usize {
    match draw(seed, 4, 4, 8) {
        0 | 1 => 64,
        2 => Plan::NEIGHBOURS + 1,
        _ => Plan::NEIGHBOURS,
    }
}

// The mesh that a seed draws. It is sound but for lists longer than allowed, which few have.
pub fn drawn(seed: u64) -> Case {
    let most = draw(seed, 0, 4, 64) % 64;
    let n = (1 + draw(seed, 1, 4, most + 1) % 64) as u8;
    let width = (1 + draw(seed, 2, 4, 8) % 8) as u8;
    let s = Shape {
        seed: seed,
        kind: draw(seed, 3, 4, 15),
        n: n,
        width: width,
        most: most_neighbours(seed),
    };
    let l = labels(seed, n);
    let mut c = mesh(s, &l);
    c.lengths = with_room(c.lengths, seed);
    c
}
