// Rows that can be looked at one by one, cut, held against 17's rule and marked: lent as numbers, or standing in the bytes of a file, two for each.
ghost use Rattle.std.specs.Prelude.{◌≡◌, true, List, ℕ, ◌≤◌, ◌<◌, length, get_or};
ghost use Rattle.plan.specs.Lists.{is_in, segment};
ghost use Rattle.plan.specs.File.{bad_column};
ghost use Rattle.layout.specs.Arrays.{Marked};
ghost use Rattle.rowchecks.specs.Rows.{rows_in};

use coding::read16;
use layout::{bad_column, mark_rows};

pub trait Rows: Copy {
    // the rows that stand here
    ghost numbers: { Self → List ℕ };

    // How many they are. O(1).
    fn count(&self) -> usize
        ensures { result ≡ length (numbers self.now) };

    // Row k of them. O(1).
    fn row(&self, k: usize) -> usize
        requires { k < length (numbers self.now) }
        ensures { result ≡ get_or (numbers self.now) k 0 };

    // Those from place a up to place e. O(1).
    fn part(&self, a: usize, e: usize) -> Self
        requires { (a ≤ e) × (e ≤ length (numbers self.now)) }
        ensures { numbers result ≡ segment (numbers self.now) a e };

    // Whether, as rows of column j, they break 17's rule. O(length).
    fn bad_column(&self, n: usize, j: usize) -> bool
        ensures { result ≡ bad_column n j (numbers self.now) };

    // Each of them gets the mark j. O(length).
    fn mark(&self, j: u16, marks: &mut [u16])
        requires { (i : ℕ) → is_in i (numbers self.now) ≡ true → i < length marks.old }
        ensures { Marked j (λ i. is_in i (numbers self.now)) marks.old marks.new };
}

// Rows lent as numbers: 17's rule and the marks are those of `layout`.
#[derive(Clone, Copy)]
pub struct Lent<'a>(pub &'a [u16]);

impl<'a> Rows for Lent<'a> {
    ghost numbers = { λ l. l.0.now };

    fn count(&self) -> usize {
        self.0.len()
    }

    fn row(&self, k: usize) -> usize {
        self.0[k] as usize
    }

    fn part(&self, a: usize, e: usize) -> Self {
        Lent(&self.0[a..e])
    }

    #[cold]
    #[inline(never)]
    fn bad_column(&self, n: usize, j: usize) -> bool {
        bad_column(n, j, self.0)
    }

    fn mark(&self, j: u16, marks: &mut [u16]) {
        mark_rows(self.0, j, marks);
    }
}

// Rows in the bytes of a file, two for each.
#[derive(Clone, Copy)]
pub struct Encoded<'a>(pub &'a [u8]);

impl<'a> Rows for Encoded<'a> {
    ghost numbers = { λ l. rows_in l.0.now };

    fn count(&self) -> usize {
        self.0.len() / 2
    }

    fn row(&self, k: usize) -> usize {
        read16(self.0, 2 * k) as usize
    }

    fn part(&self, a: usize, e: usize) -> Self {
        let start = 2 * a;
        let end = 2 * e;
        Encoded(&self.0[start..end])
    }

    #[cold]
    #[inline(never)]
    fn bad_column(&self, n: usize, j: usize) -> bool {
        let mut before = j;
        for k in 0..self.count() {
            let i = self.row(k);
            if i <= before {
                return true;
            }
            if i >= n {
                return true;
            }
            before = i;
        }
        false
    }

    fn mark(&self, j: u16, marks: &mut [u16]) {
        for k in 0..self.count() {
            marks[self.row(k)] = j;
        }
    }
}
