// Whether the uncut parts of a handed-out plan are cliques. Right for at most 64 nodes.
use crate::check::matrix;
use crate::given::{GivenPlan, NodeLists};
use crate::lists::{between, nodes_in, total};
use crate::sets::{has, only, without};

// Whether one of p parts has part k as its parent (document 01: father).
fn has_child(p: usize, parents: &[u16], k: usize) -> bool {
    parents.iter().take(p).any(|q| usize::from(*q) == k)
}

// The nodes of part k.
fn part(order: &[u16], sizes: &[u16], k: usize) -> u64 {
    nodes_in(between(order, total(sizes, k), total(sizes, k.saturating_add(1))))
}

// Whether the nodes of s are all next to one another: each one's list holds all of s but itself.
fn clique(m: &[u64; 64], s: u64) -> bool {
    m.iter()
        .enumerate()
        .all(|(v, row)| !has(s, v) || without(s, *row) == only(v))
}

// "An uncut part is always a set of nodes that are all next to one another": a part that is no part's parent.
pub fn uncut_cliques(mesh: NodeLists, plan: GivenPlan) -> bool {
    let m = matrix(mesh);
    (0..plan.parts).all(|k| {
        has_child(plan.parts, plan.parents, k) || clique(&m, part(plan.order, plan.sizes, k))
    })
}
