// The slots of a draft as a matrix, a cell for each column and row below 64, and drafts with other slots.
use crate::draft::{Draft, Field};
use meshes::Buffers;

// Whether there is a slot, by column and row. Columns and rows from 64 on have the cells of their remainders.
#[derive(Clone, Copy)]
pub(crate) struct Cells {
    columns: [[bool; 64]; 64],
}

impl Cells {
    pub(crate) fn new() -> Cells {
        Cells {
            columns: [[false; 64]; 64],
        }
    }

    // A slot where the rule says so, of a column and a row.
    // kept: one number for both, for a function has one loop.
    pub(crate) fn by_rule<F: Fn(usize, usize) -> bool>(rule: F) -> Cells
        requires { F.IsAlwaysCallable rule }
    {
        let mut cells = Cells::new();
        for k in 0..4096usize {
            cells.put(k / 64, k % 64, rule(k / 64, k % 64));
        }
        cells
    }

    pub(crate) fn has(&self, j: usize, i: usize) -> bool {
        self.columns[j % 64][i % 64]
    }

    pub(crate) fn put(&mut self, j: usize, i: usize, slot: bool) {
        self.columns[j % 64][i % 64] = slot;
    }

    // A slot more, or one less, at row i of column j.
    pub(crate) fn toggled(mut self, j: usize, i: usize) -> Cells {
        self.put(j, i, !self.has(j, i));
        self
    }

    // The first row of column j, if it has one.
    pub(crate) fn first_row(&self, j: usize) -> Option<usize> {
        self.columns[j % 64].iter().position(|slot| *slot)
    }

    // Puts the rows of column j of a draft.
    fn put_column(&mut self, d: &Draft, j: usize) {
        let from = d.entry(Field::ColumnStarts, j);
        let end = d.entry(Field::ColumnStarts, j % 64 + 1);
        for i in d.lists.rows.get(from..end).unwrap_or(&[]) {
            self.put(j, usize::from(*i), true);
        }
    }

    pub(crate) fn of(d: &Draft) -> Cells {
        let mut cells = Cells::new();
        for j in 0..d.n.min(64) {
            cells.put_column(d, j);
        }
        cells
    }
}

// Writes the rows of a column from a place on, and gives where the next column's rows go.
fn put_rows(rows: &mut [u16; 2100], at: usize, column: &[bool; 64]) -> usize {
    let mut end = at;
    for (i, slot) in column.iter().enumerate() {
        if *slot && end < 2100 {
            rows[end] = (i % 64) as u16;
            end += 1;
        }
    }
    end
}

// The draft with these slots.
pub(crate) fn with_cells(mut d: Draft, cells: &Cells) -> Draft {
    let mut at = 0usize;
    let Buffers {
        column_starts,
        rows,
        ..
    } = Buffers::new();
    d.lists.column_starts = column_starts;
    d.lists.rows = rows;
    d.lists.column_starts[0] = 0;
    for (j, column) in cells.columns.iter().enumerate().take(d.n) {
        at = put_rows(&mut d.lists.rows, at, column);
        d.lists.column_starts[j % 64 + 1] = (at % 65536) as u32;
    }
    d.s = at;
    d
}
