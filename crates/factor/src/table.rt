// The columns of a plan, as its two lists tell them, and with the values in their slots.
ghost use Rattle.std.specs.Prelude.{◌≡◌, ◌+◌, ◌<◌, length, get_or};
ghost use Rattle.plan.specs.Lists.{segment};
ghost use Rattle.factor.specs.Passing.{Filled};

// Column j's slots are those from start j up to start j + 1, and each slot has a row. Of a plan that passes the checks only what is used is taken: the
// starts of its columns and where the last one ends, and a row for each slot.
#[derive(Clone, Copy)]
pub(crate) struct Columns<'a> {
    pub starts: &'a [u32],
    pub rows: &'a [u16],
}

// The columns of a plan that passes the checks, with a value in each slot: what the passes of the solution take, for vectors with an entry for each node.
#[derive(Clone, Copy)]
pub(crate) struct FilledColumns<'a> {
    pub nodes: usize,
    pub columns: Columns<'a>,
    pub values: &'a [f64],
    ghost filled: { Filled columns.starts.now columns.rows.now (length values.now) nodes },
}

impl<'a> FilledColumns<'a> {
    // Column j's rows. O(1).
    pub(crate) fn rows_of(&self, j: usize) -> &'a [u16]
        requires { j < self.now.nodes }
        ensures { result.now ≡ segment self.now.columns.rows.now (get_or self.now.columns.starts.now j 0) (get_or self.now.columns.starts.now (j + 1) 0) }
    {
        &self.columns.rows[self.columns.starts[j] as usize..self.columns.starts[j + 1] as usize]
    }

    // The values in its slots. O(1).
    pub(crate) fn values_of(&self, j: usize) -> &'a [f64]
        requires { j < self.now.nodes }
        ensures { result.now ≡ segment self.now.values.now (get_or self.now.columns.starts.now j 0) (get_or self.now.columns.starts.now (j + 1) 0) }
    {
        &self.values[self.columns.starts[j] as usize..self.columns.starts[j + 1] as usize]
    }
}
