// The lines of a text, their words, and the numbers that these say. A line is told by where it begins; its words are counted from 0.
use crate::lists::{between, item};

// The least number that is none of 32 bits.
const NO_NUMBER: usize = 4294967296;

// "A line ends at a line feed, a carriage return before it allowed"
fn ends_line(text: &[u8], at: usize) -> bool {
    if item(text, at) == b'\r' {
        return item(text, at.saturating_add(1)) == b'\n';
    }
    item(text, at) == b'\n'
}

// Where a line ends, so or "at the text's end".
fn line_end(text: &[u8], line: usize) -> usize {
    (line..text.len())
        .find(|i| ends_line(text, *i))
        .unwrap_or(text.len())
}

// "Spaces or tabs separate"
fn separates(x: u8) -> bool {
    x == b' ' || x == b'\t'
}

// Whether a word of the line begins at a place of it.
fn begins_word(text: &[u8], line: usize, at: usize) -> bool {
    (at <= line || separates(item(text, at - 1))) && !separates(item(text, at))
}

// Where word k begins, or the line's end where there are not so many.
pub(crate) fn word(text: &[u8], line: usize, k: usize) -> usize {
    let end = line_end(text, line);
    (line..end)
        .filter(|i| begins_word(text, line, *i))
        .nth(k)
        .unwrap_or(end)
}

// Whether a line has a word k.
fn has_word(text: &[u8], line: usize, k: usize) -> bool {
    word(text, line, k) < line_end(text, line)
}

// Whether a line after the first begins at a place, and is not empty.
pub(crate) fn is_line(text: &[u8], at: usize) -> bool {
    at != 0 && item(text, at - 1) == b'\n' && has_word(text, at, 0)
}

// The words of the first line, with one space before each.
const BANNER: &[u8] = b" %%matrixmarket matrix coordinate pattern symmetric";

// How much of the banner stands there with x behind it, "in any letter case", where `so_far` of it stand without x; none where it does not.
fn follows(so_far: Option<usize>, x: u8) -> Option<usize> {
    let next = so_far?;
    if *BANNER.get(next)? != x.to_ascii_lowercase() {
        return None;
    }
    Some(next.saturating_add(1))
}

// "The first line is %%MatrixMarket matrix coordinate pattern symmetric": its words, with one space before each.
pub(crate) fn has_banner(text: &[u8]) -> bool {
    let mut next = Some(0usize);
    for i in 0..line_end(text, 0) {
        if begins_word(text, 0, i) {
            next = follows(next, b' ');
        }
        let x = item(text, i);
        if !separates(x) {
            next = follows(next, x);
        }
    }
    next == Some(BANNER.len())
}

// The number with one more digit behind it, if it is one of 32 bits.
fn with_digit(x: usize, digit: u8) -> Option<usize> {
    if x < NO_NUMBER && digit.is_ascii_digit() {
        let longer = x * 10 + usize::from(digit - b'0');
        if longer < NO_NUMBER {
            return Some(longer);
        }
    }
    None
}

// The number that word k says: "numbers are digits only", of at most 32 bits.
pub(crate) fn number(text: &[u8], line: usize, k: usize) -> Option<usize> {
    let mut x = 0usize;
    for digit in between(text, word(text, line, k), line_end(text, line)) {
        if separates(*digit) {
            return Some(x);
        }
        x = with_digit(x, *digit)?;
    }
    Some(x)
}

// Whether the words of a line are so many numbers and nothing else.
pub(crate) fn numbers_only(text: &[u8], line: usize, count: usize) -> bool {
    (0..count).all(|k| has_word(text, line, k) && number(text, line, k).is_some())
        && !has_word(text, line, count)
}
