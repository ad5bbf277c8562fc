// The head of a text: the banner, then comments and blank lines, then "the size line is rows, columns, pairs".
ghost use Rattle.std.specs.Prelude.{◌≡◌, [], ◌≤◌, length, get_or};
ghost use Rattle.plan.specs.MatrixMarket.{skip_comments};
ghost use Rattle.lexer.specs.Suffixes.{words_at, lines_at};
ghost use Rattle.matrix_market.specs.Lines.{SizeAt, HeadOf};

use crate::banner::banner;
use lexer::{comment, line_over, next_line, number};

// What the head of a text holds: the numbers of the size line, and where the lines of the pairs begin.
#[derive(Clone, Copy)]
pub(crate) struct Size {
    pub rows: u64,
    pub columns: u64,
    pub pairs: u64,
    pub next: usize,
}

// Where the first line stands that has words and is no comment, from the start of a line on; the text's end where there is none. O(bytes passed).
fn size_line(text: &[u8], at: usize) -> usize
    requires { at ≤ length text.now }
    ensures { (result ≤ length text.now) × (skip_comments (lines_at text.now at) ≡ lines_at text.now result) × (get_or (lines_at text.now result) 0 [] ≡ words_at text.now result) }
{
    let mut i = at;
    while i < text.len() {
        if let Some(next) = line_over(text, i) {
            i = next;
        } else if comment(text, i) {
            i = next_line(text, i);
        } else {
            return i;
        }
    }
    i
}

// The line that begins at a place, as the size line, where it holds three numbers and nothing else. O(its length).
fn read_size(text: &[u8], at: usize) -> Option<Size>
    requires { at ≤ length text.now }
    ensures { SizeAt text.now at result }
{
    let rows = number(text, at)?;
    let columns = number(text, rows.next)?;
    let pairs = number(text, columns.next)?;
    let next = line_over(text, pairs.next)?;
    Some(Size {
        rows: rows.value,
        columns: columns.value,
        pairs: pairs.value,
        next,
    })
}

// The head of a text, where it is of the kind. O(its length).
pub(crate) fn read_head(text: &[u8]) -> Option<Size>
    ensures { HeadOf text.now result }
{
    let second = banner(text)?;
    read_size(text, size_line(text, second))
}
