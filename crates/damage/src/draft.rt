// What the writer is lent: four numbers and five lists, each the first entries of an array, and room for the bytes.
use crate::file::File;
use meshes::{Buffers, Held, first, front, holds};
use naive::{GivenPlan, LONGEST, NaiveFile, NodeLists, Refused};
use plan::{Plan, Refusal};
use planfile::LentPlan;

// What has a length: the lists, and the room for the bytes.
#[derive(Clone, Copy)]
pub(crate) enum Lent {
    Order,
    Sizes,
    Parents,
    ColumnStarts,
    Rows,
    Room,
}

impl Lent {
    pub(crate) const ALL: [Lent; 6] = [
        Lent::Order,
        Lent::Sizes,
        Lent::Parents,
        Lent::ColumnStarts,
        Lent::Rows,
        Lent::Room,
    ];
}

// What has entries: the lists, and the numbers, which have one.
#[derive(Clone, Copy)]
pub(crate) enum Field {
    Order,
    Sizes,
    Parents,
    ColumnStarts,
    Rows,
    N,
    P,
    S,
    Unknowns,
}

impl Field {
    pub(crate) const ALL: [Field; 9] = [
        Field::Order,
        Field::Sizes,
        Field::Parents,
        Field::ColumnStarts,
        Field::Rows,
        Field::N,
        Field::P,
        Field::S,
        Field::Unknowns,
    ];
}

// The lists are the fronts of arrays, and `lengths` has the lengths of what is lent, in the order of `Lent`.
// kept: arrays with lengths beside, for memory is fixed.
#[derive(Clone, Copy)]
pub(crate) struct Draft {
    pub(crate) unknowns: usize,
    pub(crate) n: usize,
    pub(crate) p: usize,
    pub(crate) s: usize,
    pub(crate) lists: Buffers,
    pub(crate) lengths: [usize; 6],
}

// Lists and room that are longer than needed.
pub(crate) const LENGTHS: [usize; 6] = [80, 80, 80, 80, 2100, LONGEST];

// The draft of a plan, its lists and the room longer than needed. A draft of no nodes where there is no plan.
impl From<Held> for Draft {
    fn from(h: Held) -> Draft {
        let plan = h.answer.unwrap_or(Plan::new(0, 0, 0, 0, 0));
        Draft {
            unknowns: plan.unknowns as usize,
            n: plan.nodes as usize,
            p: plan.parts as usize,
            s: plan.slots as usize,
            lists: h.buffers,
            lengths: LENGTHS,
        }
    }
}

// What writing leaves: the length or the refusal, and the bytes, which were 77.
#[derive(Clone, Copy, PartialEq, Eq)]
pub(crate) struct Wrote {
    pub(crate) answer: Result<usize, Refusal>,
    bytes: [u8; LONGEST],
}

impl Wrote {
    // Whether these bytes were written, and the rest is as it was lent.
    pub(crate) fn holds(&self, bytes: &[u8; LONGEST], length: usize) -> bool {
        self.answer == Ok(length) && holds(&self.bytes, bytes, length, &77)
    }

    // Whether the naive writer answered the same, and the bytes are its file's, or, for a refusal, as they were lent.
    // kept: compared by hand, for the two are types apart: `naive` shares none with the library.
    pub(crate) fn agrees(&self, want: &Result<NaiveFile, Refused>) -> bool {
        match (self.answer, want) {
            (Ok(_), Ok(file)) => self.holds(&file.bytes, file.length),
            (Err(refusal), Err(want)) => {
                refusal.number() == want.0 && holds(&self.bytes, &[], 0, &77)
            }
            _ => false,
        }
    }

    // The file that was written, or one of no bytes.
    pub(crate) fn file(&self) -> File {
        File {
            version: 2,
            bytes: self.bytes,
            length: self.answer.unwrap_or(0),
        }
    }
}

// The number in an entry, or 0 beyond the end.
// kept: of two bytes alone, for one for both widths needs a trait of its own, and a single list has four.
fn at(list: &[u16], i: usize) -> usize {
    list.get(i).map_or(0, |x| usize::from(*x))
}

// Puts an entry, cut to its width, where there is one.
fn put(list: &mut [u16], i: usize, x: usize) {
    if let Some(entry) = list.get_mut(i) {
        *entry = (x % 65536) as u16;
    }
}

impl Draft {
    fn length(&self, lent: Lent) -> usize {
        self.lengths[lent as usize]
    }

    // The layout that is lent.
    pub(crate) fn columns<'a>(&'a self) -> NodeLists<'a> {
        NodeLists {
            nodes: self.n,
            starts: first(&self.lists.column_starts, self.length(Lent::ColumnStarts)),
            entries: first(&self.lists.rows, self.length(Lent::Rows)),
        }
    }

    // The plan that is lent.
    fn plan<'a>(&'a self) -> GivenPlan<'a> {
        GivenPlan {
            unknowns: self.unknowns,
            parts: self.p,
            slots: self.s,
            order: first(&self.lists.order, self.length(Lent::Order)),
            sizes: first(&self.lists.sizes, self.length(Lent::Sizes)),
            parents: first(&self.lists.parents, self.length(Lent::Parents)),
            columns: self.columns(),
        }
    }

    pub(crate) fn write(&self) -> Wrote {
        let plan = self.plan();
        let lent = LentPlan {
            unknowns: plan.unknowns,
            nodes: plan.columns.nodes,
            parts: plan.parts,
            slots: plan.slots,
            order: plan.order,
            sizes: plan.sizes,
            parents: plan.parents,
            column_starts: plan.columns.starts,
            rows: plan.columns.entries,
        };
        let mut bytes = [77u8; LONGEST];
        let answer = planfile::write(&lent, front(&mut bytes, self.length(Lent::Room)));
        Wrote { answer, bytes }
    }

    pub(crate) fn write_naively(&self) -> Result<NaiveFile, Refused> {
        naive::write(self.plan(), self.length(Lent::Room))
    }

    // The file of this version, 1 or 2, of the draft as it stands, sound or not, for n and p of at most 64 and s of at most 2,016.
    pub(crate) fn encoded(&self, version: usize) -> File {
        let whole = Draft {
            lengths: LENGTHS,
            ..*self
        };
        let NaiveFile { bytes, length } = naive::encode(version, whole.plan());
        File {
            version,
            bytes,
            length,
        }
    }

    // How many entries a list has; a number has one.
    pub(crate) fn entries(&self, field: Field) -> usize {
        match field {
            Field::Order => self.n,
            Field::Sizes | Field::Parents => self.p,
            Field::ColumnStarts => self.n % 65536 + 1,
            Field::Rows => self.s,
            _ => 1,
        }
    }

    // Entry i of a list, or the number.
    pub(crate) fn entry(&self, field: Field, i: usize) -> usize {
        match field {
            Field::Order => at(&self.lists.order, i),
            Field::Sizes => at(&self.lists.sizes, i),
            Field::Parents => at(&self.lists.parents, i),
            Field::ColumnStarts => self.lists.column_starts.get(i).map_or(0, |x| *x as usize),
            Field::Rows => at(&self.lists.rows, i),
            Field::N => self.n,
            Field::P => self.p,
            Field::S => self.s,
            Field::Unknowns => self.unknowns,
        }
    }

    // The draft with another number there.
    pub(crate) fn with_entry(mut self, field: Field, i: usize, x: usize) -> Draft {
        match field {
            Field::Order => put(&mut self.lists.order, i, x),
            Field::Sizes => put(&mut self.lists.sizes, i, x),
            Field::Parents => put(&mut self.lists.parents, i, x),
            Field::ColumnStarts => {
                if i < 80 {
                    self.lists.column_starts[i] = (x % 4294967296) as u32;
                }
            }
            Field::Rows => put(&mut self.lists.rows, i, x),
            Field::N => self.n = x,
            Field::P => self.p = x,
            Field::S => self.s = x,
            Field::Unknowns => self.unknowns = x,
        }
        self
    }

    // The least length that is enough.
    pub(crate) fn enough(&self, lent: Lent) -> usize {
        match lent {
            Lent::Order => self.n,
            Lent::Sizes | Lent::Parents => self.p,
            Lent::ColumnStarts => self.n % 65536 + 1,
            Lent::Rows => self.s,
            Lent::Room => { 19 + self.n % 65536 * 4 + self.p % 65536 * 4 + self.s % 65536 * 2 }
        }
    }

    // The draft with another length of a list or of the room.
    pub(crate) fn with_length(mut self, lent: Lent, length: usize) -> Draft {
        self.lengths[lent as usize] = length;
        self
    }
}
