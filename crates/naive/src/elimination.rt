// The layout, by eliminating the nodes one after the other.
use crate::sets::{has, only, row, without};

// kept: arrays with their lengths beside, for memory is fixed.
#[derive(Drop)]
pub(crate) struct Elimination {
    pub(crate) slots: usize,
    pub(crate) multiplications: u64,
    pub(crate) column_starts: [u32; 65],
    pub(crate) rows: [u16; 2016],
}

// The multiplications of a column of c rows.
pub(crate) fn multiplications(c: u32) -> u64 {
    if c < 64 {
        return u64::from(c.saturating_mul(c + 3) / 2);
    }
    0
}

impl Elimination {
    // Row i in the next slot.
    fn add_slot(&mut self, i: usize) {
        let at = self.slots;
        if at < 2016 {
            self.rows[at] = (i % 64) as u16;
            self.slots = at + 1;
        }
    }

    // The positions of the nodes of s, ascending, in the next slots.
    fn add_rows(&mut self, order: &[u16; 64], s: u64, n: usize) {
        for (i, v) in order.iter().enumerate().take(n) {
            if has(s, usize::from(*v)) {
                self.add_slot(i);
            }
        }
    }

    // Column j, whose rows are the positions of the nodes of s.
    fn add_column(&mut self, order: &[u16; 64], s: u64, n: usize, j: usize) {
        self.add_rows(order, s, n);
        if j < 64 {
            self.column_starts[j + 1] = (self.slots % 65536) as u32;
        }
        let more = multiplications(s.count_ones());
        self.multiplications = self.multiplications.saturating_add(more);
    }
}

// Joins the nodes of s to one another.
fn join(m: &mut [u64; 64], s: u64) {
    for (v, row) in m.iter_mut().enumerate() {
        if has(s, v) {
            *row |= without(s, only(v));
        }
    }
}

// Eliminates the nodes by their positions.
pub(crate) fn eliminate(mut m: [u64; 64], order: &[u16; 64], n: usize) -> Elimination {
    let mut e = Elimination {
        slots: 0,
        multiplications: 0,
        column_starts: [0; 65],
        rows: [0; 2016],
    };
    let mut gone = 0u64;
    for (j, v) in order.iter().enumerate().take(n) {
        let v = usize::from(*v);
        gone |= only(v);
        let s = without(row(&m, v), gone);
        e.add_column(order, s, n, j);
        join(&mut m, s);
    }
    e
}
