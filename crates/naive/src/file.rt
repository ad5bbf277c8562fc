// The plan file, read and written as documents 01 and 02 list its bytes: version 2, and version 1, in which a node has one unknown. Refusals 10 to 14
// and 28 of reading, and 28 and 13 of writing, are right for every file; the others, a plan and a file for at most 64 nodes, and `TOO_LARGE` stands
// for them beyond.
use crate::elimination::multiplications;
use crate::given::{GivenPlan, Room};
use crate::head::{Head, number16, numbers_fail, order_at, read_head, unknowns_fail};
use crate::lists::total;
use crate::refused::{Refused, refused_if};
use crate::{NaivePlan, TOO_LARGE};

// Where the parts, the row counts and the rows stand, for n and p that pass 13.
fn parts_at(h: Head) -> usize {
    order_at(h.version).saturating_add(h.n % 65536 * 2)
}

fn parents_at(h: Head) -> usize {
    parts_at(h).saturating_add(2)
}

fn counts_at(h: Head) -> usize {
    parts_at(h).saturating_add(h.p % 65536 * 4)
}

fn rows_at(h: Head) -> usize {
    counts_at(h).saturating_add(h.n % 65536 * 2)
}

// k numbers of two bytes, the first at `from` and each so many bytes after the one before.
fn numbers<const N: usize>(bytes: &[u8], from: usize, apart: usize, k: usize) -> [u16; N] {
    let mut list = [0u16; N];
    let mut at = from;
    for x in list.iter_mut().take(k) {
        *x = number16(bytes, at);
        at = at.saturating_add(apart);
    }
    list
}

// Column j starts behind the rows of the columns before it.
fn starts_of(counts: &[u16; 64], n: usize) -> [u32; 65] {
    let mut starts = [0u32; 65];
    for (j, start) in starts.iter_mut().enumerate().take(n.saturating_add(1)) {
        *start = (total(counts, j) % 4294967296) as u32;
    }
    starts
}

// The position of each of n nodes.
fn positions_of(order: &[u16; 64], n: usize) -> [u16; 64] {
    let mut positions = [0u16; 64];
    for (v, position) in positions.iter_mut().enumerate().take(n) {
        *position = order.iter().position(|x| usize::from(*x) == v).unwrap_or(0) as u16;
    }
    positions
}

// The multiplications of columns with so many rows.
fn products(counts: &[u16; 64], n: usize) -> u64 {
    counts.iter().take(n).fold(0u64, |m, count| {
        m.saturating_add(multiplications(u32::from(*count)))
    })
}

// The plan that stands in the bytes.
fn plan_in(bytes: &[u8], h: Head) -> NaivePlan {
    let order = numbers::<64>(bytes, order_at(h.version), 2, h.n);
    let positions = positions_of(&order, h.n);
    let counts = numbers::<64>(bytes, counts_at(h), 2, h.n);
    NaivePlan {
        nodes: (h.n % 65536) as u32,
        parts: (h.p % 65536) as u32,
        slots: (h.s % 65536) as u32,
        unknowns: (h.unknowns % 65536) as u32,
        multiplications: products(&counts, h.n),
        order,
        positions,
        sizes: numbers(bytes, parts_at(h), 4, h.p),
        parents: numbers(bytes, parents_at(h), 4, h.p),
        column_starts: starts_of(&counts, h.n),
        rows: numbers(bytes, rows_at(h), 2, h.s),
    }
}

// What reading a file hands out where the reader knows the versions from 1 to `newest`: 2, or 1 in the workshop that never updates.
pub fn read(newest: usize, bytes: &[u8], room: Room) -> Result<NaivePlan, Refused> {
    let h = read_head(bytes, newest)?;
    refused_if(64 < h.n, TOO_LARGE)?;
    let p = plan_in(bytes, h);
    p.given().check_contents()?;
    room.check_lists(h.n)?;
    room.check_rows(h.s)?;
    Ok(p)
}

// The bytes of the longest file: 64 nodes, each a part, and every slot.
pub const LONGEST: usize = 4563;

// A file as it is written: at the front of `bytes` so many are used.
// kept: an array with its length beside, for memory is fixed.
#[derive(Drop)]
pub struct NaiveFile {
    pub length: usize,
    pub bytes: [u8; LONGEST],
}

impl NaiveFile {
    // Puts the next byte.
    fn put8(&mut self, x: usize) {
        let at = self.length;
        if at < LONGEST {
            self.bytes[at] = (x % 256) as u8;
            self.length = at + 1;
        }
    }

    fn put16(&mut self, x: usize) {
        self.put8(x % 256);
        self.put8(x / 256);
    }

    fn put32(&mut self, x: usize) {
        self.put16(x % 65536);
        self.put16(x / 65536);
    }

    // A version 1 file does not have the number of unknowns.
    fn put_head(&mut self, version: usize, plan: GivenPlan) {
        self.put8(78);
        self.put8(68);
        self.put8(80);
        self.put16(version);
        if version != 1 {
            self.put16(plan.unknowns);
        }
        self.put32(plan.columns.nodes);
        self.put32(plan.parts);
        self.put32(plan.slots);
    }

    fn put_list(&mut self, list: &[u16], k: usize) {
        for x in list.iter().take(k) {
            self.put16(usize::from(*x));
        }
    }

    // The size and the parent of each part.
    fn put_parts(&mut self, plan: GivenPlan) {
        let parts = plan.sizes.iter().zip(plan.parents.iter());
        for (size, parent) in parts.take(plan.parts) {
            self.put16(usize::from(*size));
            self.put16(usize::from(*parent));
        }
    }

    // How many rows each column has.
    fn put_counts(&mut self, plan: GivenPlan) {
        let columns = plan.columns;
        for j in 0..columns.nodes {
            self.put16(columns.end(j).saturating_sub(columns.start(j)));
        }
    }
}

// 13, "also when a lent slice is shorter than its count".
fn lent_fails(plan: GivenPlan) -> bool {
    let n = plan.columns.nodes;
    numbers_fail(n, plan.parts, plan.slots)
        || plan.order.len() < n
        || plan.sizes.len() < plan.parts
        || plan.parents.len() < plan.parts
        || plan.columns.starts.len() <= n
        || plan.columns.entries.len() < plan.slots
}

// The bytes of a file of this version, 1 or 2, with a plan's lists as they stand, unchecked. Right where n and p are at most 64 and s at most 2,016.
pub fn encode(version: usize, plan: GivenPlan) -> NaiveFile {
    let mut file = NaiveFile {
        length: 0,
        bytes: [0; LONGEST],
    };
    file.put_head(version, plan);
    file.put_list(plan.order, plan.columns.nodes);
    file.put_parts(plan);
    file.put_counts(plan);
    file.put_list(plan.columns.entries, plan.slots);
    file
}

// The first of 28, 13 and 15 to 19 that fails in what the writer, or the factorization, is lent.
pub(crate) fn check_lent(plan: GivenPlan) -> Result<(), Refused> {
    refused_if(unknowns_fail(plan.unknowns), 28)?;
    refused_if(lent_fails(plan), 13)?;
    refused_if(64 < plan.columns.nodes, TOO_LARGE)?;
    plan.check_contents()
}

// What writing a plan hands out, in version 2. `room` is the length of the lent bytes.
pub fn write(plan: GivenPlan, room: usize) -> Result<NaiveFile, Refused> {
    check_lent(plan)?;
    let file = encode(2, plan);
    refused_if(room < file.length, 8)?;
    Ok(file)
}
