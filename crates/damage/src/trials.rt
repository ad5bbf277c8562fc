// A file read, and a draft written, by the proved code and by the naive code; what was read, written back; and what the workshop that never updates
// answers, whose reader knows version 1 alone.
use crate::counts::{Counts, Operation};
use crate::draft::Draft;
use crate::file::File;
use crate::held::{ENOUGH, read};
use meshes::Held;
use naive::{NaivePlan, Refused, Room};
use plan::Refusal;

// Whether the plan that was read of a file comes back when it is written: byte for byte where the file is of version 2, else as the same plan.
fn comes_back(f: &File, h: &Held) -> bool {
    let w = Draft::from(*h).write();
    if f.is_version_2() {
        return w.holds(&f.bytes, f.length);
    }
    w.answer.is_ok() && *h == read(&w.file(), ENOUGH)
}

// Whether the workshop that never updates hands out what the reader does. (A refusal's lent memory is looked at with the readers' own comparison.)
fn same_answer(h: &Held, want: &Result<NaivePlan, Refused>) -> bool {
    match (h.answer, want) {
        (Err(refusal), Err(want)) => refusal.number() == want.0,
        _ => h.agrees(want),
    }
}

// A reader that knows version 1 alone refuses a file of version 2.
const NEWER: Option<Refused> = Some(Refused(12));

// The workshop that never updates answers 12 to a version 2 file, and to any other what the reader answers.
fn try_old(c: &mut Counts, f: &File, room: Room, h: &Held) {
    let want = naive::read(1, f.as_slice(), room);
    let refusal = want.err();
    let same = if f.is_version_2() {
        refusal == NEWER
    } else {
        same_answer(h, &want)
    };
    c.count(Operation::OldRead, refusal, same);
}

// A file read into results of these lengths.
pub(crate) fn try_lent(c: &mut Counts, f: &File, room: Room) {
    let want = naive::read(2, f.as_slice(), room);
    let h = read(f, room);
    c.count(Operation::Read, want.err(), h.agrees(&want));
    if h.answer.is_ok() {
        c.returned(comes_back(f, &h));
    }
    try_old(c, f, room, &h);
}

// A file read into results that are long enough.
pub(crate) fn try_file(c: &mut Counts, f: &File) {
    try_lent(c, f, ENOUGH);
}

// A file that reading refuses so.
pub(crate) fn try_refused(c: &mut Counts, f: &File, refusal: Refusal) {
    let h = read(f, ENOUGH);
    try_file(c, f);
    c.count(
        Operation::Read,
        Some(Refused(refusal.number())),
        h.answer == Err(refusal),
    );
}

// Writes a draft with the writer and with the naive one. The workshop that never updates answers 12 to all that is written.
pub(crate) fn try_writing(c: &mut Counts, d: &Draft) {
    let want = d.write_naively();
    let w = d.write();
    let same = w.agrees(&want);
    c.count(Operation::Write, want.err(), same);
    if w.answer.is_ok() {
        let refusal = naive::read(1, w.file().as_slice(), ENOUGH).err();
        c.count(Operation::OldRead, refusal, refusal == NEWER);
    }
}
