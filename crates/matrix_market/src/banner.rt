// The banner, "The first line is %%MatrixMarket matrix coordinate pattern symmetric".
ghost use Rattle.plan.specs.MatrixMarket.{is_banner};
ghost use Rattle.lexer.specs.Suffixes.{behind_line, words_at, Scanned};

use lexer::{keyword, line_over};

// The place of the second line, where the first is the banner. O(its length).
pub(crate) fn banner(text: &[u8]) -> Option<usize>
    ensures { Scanned (is_banner (words_at text.now 0)) text.now (behind_line text.now) result }
{
    let first = keyword(text, 0, b"%%matrixmarket")?;
    let second = keyword(text, first, b"matrix")?;
    let third = keyword(text, second, b"coordinate")?;
    let fourth = keyword(text, third, b"pattern")?;
    let fifth = keyword(text, fourth, b"symmetric")?;
    line_over(text, fifth)
}
