// Two meshes joined along pairs of their nodes, as document 02's E10 says: the joined mesh is a dense matrix, in which "two nodes of the joined mesh
// are neighbours exactly when, in either mesh, the nodes they come from were". Right for every input.
use crate::check::{NEIGHBOURS, check_mesh};
use crate::given::{NodeLists, NodePairs};
use crate::lists::{entry, times, total};
use crate::refused::{Refused, refused_if};
use crate::sets::{has, only};
use crate::text::NaiveMesh;

// The most nodes of a mesh.
const NODES: usize = 4096;

// The matrix has a row for each node, of 64 sets of 64 nodes.
const CELLS: usize = NODES * 64;

// Whether one of the nodes is none of n.
fn names_none(list: &[u16], n: usize) -> bool {
    list.iter().any(|v| n <= usize::from(*v))
}

// Whether a node stands in the list twice.
fn repeats(list: &[u16]) -> bool {
    list.iter().any(|v| times(list, v) != 1)
}

// 32 where "the pairs' two lists differ in length, or a pair names a node that does not exist"; or else 33 for "a node of either mesh paired twice".
fn check_pairs(n1: usize, n2: usize, pairs: NodePairs) -> Result<(), Refused> {
    let NodePairs { first, second } = pairs;
    refused_if(
        first.len() != second.len() || names_none(first, n1) || names_none(second, n2),
        32,
    )?;
    refused_if(repeats(first) || repeats(second), 33)
}

// The number in the joined mesh of node w of the second: its partner's, or else, behind the first mesh's, its place among those without a partner.
fn number(n1: usize, pairs: NodePairs, w: usize) -> usize {
    let mut partners = pairs.first.iter().zip(pairs.second.iter());
    match partners.find(|(_, x)| usize::from(**x) == w) {
        Some((v, _)) => usize::from(*v),
        None => {
            let paired = pairs.second.iter().filter(|x| usize::from(**x) < w).count();
            n1.saturating_add(w.saturating_sub(paired))
        }
    }
}

// The numbers of the second mesh's nodes; without nodes of a first mesh and without pairs, each node's own.
fn numbers(n1: usize, n2: usize, pairs: NodePairs) -> [u16; NODES] {
    let mut list = [0u16; NODES];
    for (w, x) in list.iter_mut().enumerate().take(n2) {
        *x = (number(n1, pairs, w) % 65536) as u16;
    }
    list
}

// Puts w next to v in the matrix.
fn mark(m: &mut [u64; CELLS], v: usize, w: usize) {
    if v < NODES && w < NODES {
        m[v * 64 + w / 64] |= only(w % 64);
    }
}

fn marked(m: &[u64; CELLS], v: usize, w: usize) -> bool {
    v < NODES && w < NODES && has(m[v * 64 + w / 64], w % 64)
}

// Puts the numbers of the neighbours of a mesh's node u next to its own.
fn mark_list(m: &mut [u64; CELLS], numbers: &[u16; NODES], list: &[u16], u: usize) {
    for w in list {
        mark(m, entry(numbers, u), entry(numbers, usize::from(*w)));
    }
}

fn mark_mesh(m: &mut [u64; CELLS], numbers: &[u16; NODES], mesh: NodeLists) {
    for u in 0..mesh.nodes {
        mark_list(m, numbers, mesh.list(u), u);
    }
}

// How many neighbours v has.
fn degree(m: &[u64; CELLS], v: usize) -> u16 {
    // a slice, since `skip` takes a step for each set that it leaves out
    let first = v % NODES * 64;
    m[first..first + 64].iter().fold(0u16, |found, s| {
        found.saturating_add((s.count_ones() % 65) as u16)
    })
}

// How many neighbours each of n nodes has.
fn degrees(m: &[u64; CELLS], n: usize) -> [u16; NODES] {
    let mut list = [0u16; NODES];
    for (v, x) in list.iter_mut().enumerate().take(n) {
        *x = degree(m, v);
    }
    list
}

// The first of checks 3, 26 and 8 that fails for the joined mesh of n nodes. The last two numbers are the lengths of the lent lists.
fn check_joined(
    degrees: &[u16; NODES],
    n: usize,
    starts: usize,
    neighbours: usize,
) -> Result<(), Refused> {
    let entries = total(degrees, NODES);
    refused_if(65536 < entries, 3)?;
    // "a list longer than 26 entries"
    refused_if(degrees.iter().any(|d| NEIGHBOURS < usize::from(*d)), 26)?;
    refused_if(starts <= n || neighbours < entries, 8)
}

// Puts the starts of n nodes and the end: how many entries the nodes before have.
fn put_starts(starts: &mut [u32], degrees: &[u16; NODES], n: usize) {
    for (v, start) in starts.iter_mut().enumerate().take(n.saturating_add(1)) {
        *start = (total(degrees, v) % 4294967296) as u32;
    }
}

// Puts v's neighbours, all below n and ascending, from a place on.
fn put_list(neighbours: &mut [u16], from: usize, m: &[u64; CELLS], n: usize, v: usize) {
    let nodes = (0..n).filter(|w| marked(m, v, *w));
    let from = from.min(neighbours.len());
    for (neighbour, w) in neighbours[from..].iter_mut().zip(nodes) {
        *neighbour = (w % 65536) as u16;
    }
}

fn put_neighbours(neighbours: &mut [u16], m: &[u64; CELLS], degrees: &[u16; NODES], n: usize) {
    for v in 0..n {
        put_list(neighbours, total(degrees, v), m, n, v);
    }
}

// Checks the joined mesh of n nodes but for their number, and puts its lists.
fn put_joined(
    m: &[u64; CELLS],
    n: usize,
    starts: &mut [u32],
    neighbours: &mut [u16],
) -> Result<NaiveMesh, Refused> {
    let d = degrees(m, n);
    check_joined(&d, n, starts.len(), neighbours.len())?;
    put_starts(starts, &d, n);
    put_neighbours(neighbours, m, &d, n);
    Ok(NaiveMesh {
        nodes: n,
        entries: total(&d, n),
    })
}

// How many nodes the joined mesh has: no pair has two nodes of the second mesh.
fn joined_nodes(n1: usize, n2: usize, pairs: usize) -> usize {
    n1.saturating_add(n2.saturating_sub(pairs))
}

// What joining two meshes hands out. The lent lists are as found where it is refused, and behind what is used. All checks of the first mesh come
// before those of the second, and these before the pairs'.
pub fn join(
    mesh1: NodeLists,
    mesh2: NodeLists,
    pairs: NodePairs,
    starts: &mut [u32],
    neighbours: &mut [u16],
) -> Result<NaiveMesh, Refused> {
    let n1 = mesh1.nodes;
    let n2 = mesh2.nodes;
    check_mesh(mesh1)?;
    check_mesh(mesh2)?;
    check_pairs(n1, n2, pairs)?;
    let n = joined_nodes(n1, n2, pairs.first.len());
    refused_if(NODES < n, 1)?;
    let none = NodePairs {
        first: &[],
        second: &[],
    };
    let mut m = [0u64; CELLS];
    mark_mesh(&mut m, &numbers(0, n1, none), mesh1);
    mark_mesh(&mut m, &numbers(n1, n2, pairs), mesh2);
    put_joined(&m, n, starts, neighbours)
}
