// Plans of five positions in four parts, of sizes 1, 2, 1 and 1, with every choice of parents that 16 allows: a part's parent is one of the later
// parts or none. In some of them parts that are not below a part stand between it and parts that are. A column has one row at most, the first that
// 18 allows.
use crate::cells::{Cells, with_cells};
use crate::counts::{Counts, TREES};
use crate::draft::Draft;
use crate::drawn::empty;
use crate::two_rows::every_two_more;
use meshes::allowed_unknowns;

// How many choices of parents there are: 4 for part 0, 3 for part 1, 2 for part 2.
const CHOICES: u64 = 24;

// The parent of part q by the choice t; 4 for none.
fn parent(t: usize, q: usize) -> usize {
    match q {
        0 => 1 + t % 4,
        1 => 2 + t / 4 % 3,
        2 => 3 + t / 12 % 2,
        _ => 4,
    }
}

// The part of a position.
fn part_at(i: usize) -> usize {
    match i {
        0 => 0,
        1 | 2 => 1,
        3 => 2,
        _ => 3,
    }
}

// Whether part a is part q or one of its ancestors. There are at most three.
fn is_above(t: usize, q: usize, a: usize) -> bool {
    let first = parent(t, q);
    let second = parent(t, first);
    a == q || a == first || a == second || a == parent(t, second)
}

// Whether row i of column j is allowed.
fn allowed(t: usize, j: usize, i: usize) -> bool {
    j < i && is_above(t, part_at(j), part_at(i))
}

// Whether row i of column j is the first that is allowed.
fn is_first(t: usize, j: usize, i: usize) -> bool {
    i < 5 && allowed(t, j, i) && !(0..i).any(|k| allowed(t, j, k))
}

// What stands for a parent in the list.
fn parent_or_none(t: usize, q: usize) -> u16 {
    match parent(t, q) {
        k @ 0..4 => k as u16,
        _ => 65535,
    }
}

// The draft with its order and its parts.
fn with_parts(mut d: Draft, t: usize) -> Draft {
    d.p = 4;
    d.lists.order[..5].copy_from_slice(&[2, 4, 0, 1, 3]);
    d.lists.sizes[..4].copy_from_slice(&[1, 2, 1, 1]);
    for (q, x) in d.lists.parents.iter_mut().enumerate().take(4) {
        *x = parent_or_none(t, q);
    }
    d
}

fn tree(t: usize) -> Draft {
    let cells = Cells::by_rule(|j, i| is_first(t, j, i));
    with_cells(with_parts(empty(allowed_unknowns(t as u64), 5), t), &cells)
}

// One and two rows more in the plan of each choice.
pub(crate) fn all(c: &mut Counts) {
    for t in 0..CHOICES {
        c.begin(TREES, t);
        every_two_more(c, &tree(t as usize));
    }
}
