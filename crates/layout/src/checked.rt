// A layout that has passed checks 1 and 22, and what it tells of its columns and slots.
ghost use Rattle.std.specs.Prelude.{◌≡◌, ℕ, ◌<◌, get_or, Ok};
ghost use Rattle.plan.specs.Lists.{list_at};
ghost use Rattle.plan.specs.Refusals.{first_fault};
ghost use Rattle.plan.specs.Answers.{accepted, pair_reply, slot_reply};
ghost use Rattle.plan.specs.Questions.{layout_checks, slot_of, span_found, column_of};

use mesh::list;
use plan::{Pair, PairAnswer, Span};

// A layout of which checks 1 and 22 found no fault: n columns, the starts of their rows, and the rows. `check_layout` makes it.
#[derive(Clone, Copy)]
pub(crate) struct CheckedLayout<'a> {
    pub(crate) n: usize,
    pub(crate) column_starts: &'a [u32],
    pub(crate) rows: &'a [u16],
    ghost checked: { first_fault (layout_checks n column_starts.now rows.now) ≡ 0 },
}

impl<'a> CheckedLayout<'a> {
    // Column j's rows. O(1).
    pub(crate) fn column(&self, j: usize) -> &'a [u16]
        requires { j < self.now.n }
        ensures { result.now ≡ list_at self.now.column_starts.now self.now.rows.now j }
    {
        list(self.column_starts, self.rows, j)
    }

    // Where column j's rows stand among the rows. O(1).
    pub(crate) fn span(&self, j: usize) -> Span
        requires { j < self.now.n }
        ensures { result ≡ span_found 0 self.now.column_starts.now j }
    {
        let start = self.column_starts[j] as usize;
        let end = self.column_starts[j + 1] as usize;
        Span {
            start,
            count: end - start,
        }
    }

    // The slot of row i of column j, if it has one. O(log rows of the column).
    pub(crate) fn slot(&self, i: u16, j: usize) -> PairAnswer
        requires { j < self.now.n }
        ensures { pair_reply (Ok result) ≡ accepted (slot_of self.now.column_starts.now self.now.rows.now i j) }
    {
        match self.column(j).binary_search(&i) {
            Ok(k) => PairAnswer::Slot(self.column_starts[j] + k as u32),
            Err(_) => PairAnswer::NoSlot,
        }
    }

    // The number of slots. O(1).
    pub(crate) fn slots(&self) -> usize
        ensures { result ≡ get_or self.now.column_starts.now self.now.n 0 }
    {
        self.column_starts[self.n] as usize
    }

    // The column that holds slot s: the last that starts at s or before, since a column without rows starts where the next one does.
    // O(log n).
    fn column_of(&self, s: usize) -> usize
        requires { s < get_or self.now.column_starts.now self.now.n 0 }
        ensures { result ≡ column_of self.now.n self.now.column_starts.now s }
    {
        self.column_starts[..self.n].partition_point(|&start| start as usize <= s) - 1
    }

    // The pair that has slot s: its row, which is the later position, and its column. O(log n).
    pub(crate) fn pair(&self, s: usize) -> Pair
        requires { s < get_or self.now.column_starts.now self.now.n 0 }
        ensures { (result.row ≡ get_or self.now.rows.now s 0) × (result.column ≡ column_of self.now.n self.now.column_starts.now s) }
    {
        let column = self.column_of(s) as u32;
        let row = self.rows[s] as u32;
        Pair { row, column }
    }
}
