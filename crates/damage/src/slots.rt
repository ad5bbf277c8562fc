// The question about a slot, over layouts, sound and damaged, asked of the proved code and of the naive code; and whether slot and pair lead to each
// other.
use crate::counts::{Counts, Operation};
use meshes::{less, more};
use naive::NodeLists;
use plan::{Pair, PairAnswer, Refusal};

fn is_pair(pair: Pair, row: usize, column: usize) -> bool {
    pair.row as usize == row && pair.column as usize == column
}

// Whether the slot's pair is position a, then b.
fn has_pair(l: NodeLists, slot: u32, a: usize, b: usize) -> bool {
    match layout::pair_of_slot(l.nodes, l.starts, l.entries, slot as usize) {
        Ok(pair) => is_pair(pair, a, b),
        Err(_) => false,
    }
}

// Whether the slot of positions a and b leads back to them. Nothing is asked where b is the later one, or where they have no slot.
pub(crate) fn leads_home(
    l: NodeLists,
    a: usize,
    b: usize,
    answer: Result<PairAnswer, Refusal>,
) -> bool {
    match answer {
        Ok(PairAnswer::Slot(slot)) => a < b || has_pair(l, slot, a, b),
        _ => true,
    }
}

// Whether the pair's slot is s.
fn has_slot(l: NodeLists, pair: Pair, s: usize) -> bool {
    let answer = layout::slot_of_pair(
        l.nodes,
        l.starts,
        l.entries,
        pair.row as usize,
        pair.column as usize,
    );
    match answer {
        Ok(PairAnswer::Slot(slot)) => slot as usize == s,
        _ => false,
    }
}

// The question about slot s. Where it has a pair, the way back is asked too.
// kept: compared by hand, for the two are types apart: `naive` shares none with the library.
fn ask_slot(c: &mut Counts, l: NodeLists, s: usize) {
    let want = naive::pair_of_slot(l, s);
    let same = match (layout::pair_of_slot(l.nodes, l.starts, l.entries, s), want) {
        (Ok(pair), Ok(want)) => is_pair(pair, want.row, want.column) && has_slot(l, pair, s),
        (Err(refusal), Err(want)) => refusal.number() == want.0,
        _ => false,
    };
    c.count(Operation::Slot, want.err(), same);
}

// The last column start, or 0.
fn last_start(starts: &[u32]) -> usize {
    starts.last().map_or(0, |x| *x as usize)
}

// How many slot numbers are asked about, from 0 on: every slot's; a few over a layout that is refused or has no slot.
fn numbers(l: NodeLists) -> usize {
    if naive::pair_of_slot(l, 0).is_ok() {
        return last_start(l.starts);
    }
    3
}

// Other slot numbers: around the last start and the rows' length, two with slot 0 in their low 16 or 32 bits, and the greatest.
fn borders(l: NodeLists) -> [usize; 9] {
    let last = last_start(l.starts);
    let length = l.entries.len();
    [
        less(last),
        last,
        more(last),
        less(length),
        length,
        more(length),
        65536,
        4294967296,
        usize::MAX,
    ]
}

fn ask_borders(c: &mut Counts, l: NodeLists) {
    for s in borders(l) {
        ask_slot(c, l, s);
    }
}

// The question about slots of a layout and about numbers that are no slot's.
pub(crate) fn ask_slots(c: &mut Counts, l: NodeLists) {
    ask_borders(c, l);
    for s in 0..numbers(l) {
        ask_slot(c, l, s);
    }
}
