// One text read by the proved reader and by the naive one, into lists of several lengths.
use crate::counts::{Counts, number_of};
use crate::text::Short;
use meshes::{front, less, more};
use naive::{NaiveMesh, Refused, read_text};

// How long the arrays are whose fronts are lent, and what they hold where nothing is written.
const STARTS: usize = 80;

const ENTRIES: usize = 1400;

pub(crate) const STALE_STARTS: u32 = 60007;

pub(crate) const STALE_NEIGHBOURS: u16 = 60008;

// What the proved reader answers, as the naive one says it.
pub(crate) fn read(
    text: &[u8],
    starts: &mut [u32],
    neighbours: &mut [u16],
) -> Result<NaiveMesh, Refused> {
    match matrix_market::read(text, starts, neighbours) {
        Ok(counts) => Ok(NaiveMesh {
            nodes: counts.nodes as usize,
            entries: counts.entries as usize,
        }),
        Err(refusal) => Err(Refused(refusal.number())),
    }
}

// A text read by both into lists of these lengths: whether they leave the same in every entry, lent or not. Gives the naive answer.
fn answer_lent(
    c: &mut Counts,
    t: &Short,
    start_count: usize,
    entry_count: usize,
) -> Result<NaiveMesh, Refused> {
    let text = t.as_slice();
    let mut starts = [STALE_STARTS; STARTS];
    let mut neighbours = [STALE_NEIGHBOURS; ENTRIES];
    let a = read_text(
        text,
        front(&mut starts, start_count),
        front(&mut neighbours, entry_count),
    );
    let mut proved_starts = [STALE_STARTS; STARTS];
    let mut proved_neighbours = [STALE_NEIGHBOURS; ENTRIES];
    let b = read(
        text,
        front(&mut proved_starts, start_count),
        front(&mut proved_neighbours, entry_count),
    );
    let lists = starts == proved_starts && neighbours == proved_neighbours;
    c.count(a, a == b && lists);
    a
}

// The same, where the answer is not asked for.
fn try_lent(c: &mut Counts, t: &Short, start_count: usize, entry_count: usize) {
    let _ = answer_lent(c, t, start_count, entry_count);
}

// Lists just enough for n nodes and e entries, one longer each, and each and both one too short.
fn try_fitting(c: &mut Counts, t: &Short, n: usize, e: usize) {
    try_lent(c, t, more(n), e);
    try_lent(c, t, more(more(n)), more(e));
    try_lent(c, t, n, e);
    try_lent(c, t, more(n), less(e));
    try_lent(c, t, n, less(e));
}

// A text, whose refusal, or 0, may be known, read into lists that are long enough, into empty ones, and, where it holds a mesh, into lists that just
// are or are not.
pub(crate) fn try_text(c: &mut Counts, t: &Short, known: Option<u32>) {
    c.text();
    let answer = answer_lent(c, t, STARTS, ENTRIES);
    try_lent(c, t, 0, 0);
    let number = number_of(answer);
    if known.is_some() && known != Some(number) {
        c.unlike_known(number);
    }
    if let Ok(mesh) = answer {
        try_fitting(c, t, mesh.nodes, mesh.entries);
    }
}
