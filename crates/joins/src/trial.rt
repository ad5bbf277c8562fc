// Two meshes joined by the proved joining and by the naive one, into lists of several lengths.
use crate::buffers::{holds, put_stale};
use crate::counts::{Counts, Outcome};
use crate::lent::{ENTRIES_LEFT, Known, Lent, Lists, STARTS_LEFT, Side, part};
use join::Pairing;
use mesh::LentMesh;
use meshes::{front, less, more};
use naive::{NaiveMesh, NodeLists, Refused};
use plan::{MeshCounts, Refusal};

// A mesh as the library is lent it.
fn lent<'a>(mesh: NodeLists<'a>) -> LentMesh<'a> {
    LentMesh {
        nodes: mesh.nodes,
        starts: mesh.starts,
        neighbours: mesh.entries,
    }
}

// The proved joining, which is lent the fronts of two buffers.
pub(crate) fn join(
    l: &Lent,
    lists: &Lists,
    joined_starts: &mut [u32],
    joined: &mut [u16],
) -> Result<MeshCounts, Refusal> {
    let mesh1 = lent(lists.mesh(Side::First, l.mesh1));
    let mesh2 = lent(lists.mesh(Side::Second, l.mesh2));
    let pairs = lists.pairs(l);
    let pairing = Pairing {
        first: pairs.first,
        second: pairs.second,
    };
    join::join(
        &mesh1,
        &mesh2,
        &pairing,
        front(joined_starts, l.start_room),
        front(joined, l.entry_room),
    )
}

fn join_naively(
    l: &Lent,
    lists: &Lists,
    joined_starts: &mut [u32],
    joined: &mut [u16],
) -> Result<NaiveMesh, Refused> {
    naive::join(
        lists.mesh(Side::First, l.mesh1),
        lists.mesh(Side::Second, l.mesh2),
        lists.pairs(l),
        front(joined_starts, l.start_room),
        front(joined, l.entry_room),
    )
}

// kept: compared by hand, for the two are types apart: `naive` shares none with the library.
fn same(a: Result<NaiveMesh, Refused>, b: Result<MeshCounts, Refusal>) -> bool {
    match (a, b) {
        (Ok(a), Ok(b)) => a.nodes == b.nodes as usize && a.entries == b.entries as usize,
        (Err(a), Err(b)) => a.0 == b.number(),
        _ => false,
    }
}

// How many starts and entries are used.
fn used(a: Result<NaiveMesh, Refused>) -> (usize, usize) {
    match a {
        Ok(mesh) => (more(mesh.nodes), mesh.entries),
        Err(_) => (0, 0),
    }
}

// Whether the buffers hold the first mesh, and nothing else was written.
fn is_first(l: &Lent, lists: &Lists, joined_starts: &[u32], joined: &[u16]) -> bool {
    let mesh = lists.mesh(Side::First, l.mesh1);
    holds(joined_starts, mesh.starts, l.mesh1.starts)
        && holds(joined, mesh.entries, l.mesh1.entries)
}

// Whether an answer and what was left are as known.
fn as_known(
    l: &Lent,
    lists: &Lists,
    answer: Result<NaiveMesh, Refused>,
    joined_starts: &[u32],
    joined: &[u16],
) -> bool {
    match (l.known, answer) {
        (Known::Any, _) => true,
        (Known::Mesh, Ok(_)) => true,
        (Known::Itself, Ok(_)) => is_first(l, lists, joined_starts, joined),
        (Known::Refused(number), Err(refusal)) => refusal.0 == number,
        _ => false,
    }
}

// Joined by both into fronts of buffers: whether they answer and leave the same in every entry that is looked at, lent or not. Gives what was
// counted.
fn try_lent(c: &mut Counts, l: &Lent, lists: &Lists) -> Outcome {
    let mut want_starts = [0u32; STARTS_LEFT];
    let mut want = [0u16; ENTRIES_LEFT];
    let a = join_naively(l, lists, &mut want_starts, &mut want);
    let mut left_starts = [0u32; STARTS_LEFT];
    let mut left = [0u16; ENTRIES_LEFT];
    put_stale(front(&mut left_starts, l.start_span));
    put_stale(front(&mut left, l.entry_span));
    let b = join(l, lists, &mut left_starts, &mut left);
    let s = part(&left_starts, 0, l.start_span);
    let e = part(&left, 0, l.entry_span);
    let (starts_used, entries_used) = used(a);
    let same_lists = holds(s, &want_starts, starts_used) && holds(e, &want, entries_used);
    let known = as_known(l, lists, a, s, e);
    let o = Outcome {
        answer: a,
        as_known: known,
        same: same(a, b) && same_lists,
    };
    c.count(o);
    o
}

// Lists just enough for n nodes and e entries, one longer each, and each one too short.
fn try_fitting(c: &mut Counts, l: &Lent, lists: &Lists, n: usize, e: usize) -> Outcome {
    try_lent(c, &l.with_room(more(n), e, l.known), lists);
    try_lent(c, &l.with_room(more(more(n)), more(e), l.known), lists);
    try_lent(c, &l.with_room(n, e, Known::Refused(8)), lists);
    try_lent(c, &l.with_room(more(n), less(e), Known::Any), lists)
}

// Joined with nothing lent.
pub(crate) fn try_without_room(c: &mut Counts, l: &Lent, lists: &Lists) -> Outcome {
    try_lent(c, &l.with_room(0, 0, l.known.without_room()), lists)
}

// Joined into lists that are long enough, with nothing lent, and, where there is a joined mesh, into lists that just are or are not. Gives what
// was counted last.
pub(crate) fn try_joined(c: &mut Counts, l: &Lent, lists: &Lists) -> Outcome {
    let long = try_lent(c, l, lists);
    let none = try_without_room(c, l, lists);
    match long.answer {
        Ok(mesh) => try_fitting(c, l, lists, mesh.nodes, mesh.entries),
        Err(_) => none,
    }
}
