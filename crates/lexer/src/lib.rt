// A text by its bytes: where lines end, the next word, the next number. A place in the text stands for the bytes from it on; each scan takes a place
// and gives the place behind what it found.
#![tactic(auto)]

ghost use Rattle.std.specs.Prelude.{◌≡◌, not, map, ◌≤◌, ◌<◌, min, length, drop, position, eqb, zip};
ghost use Rattle.std.specs.List.{list_all};
ghost use Rattle.std.specs.Char.{to_ascii_lowercase};
ghost use Rattle.plan.specs.Lists.{same, segment};
ghost use Rattle.plan.specs.MatrixMarket.{not_empty, is_line_feed, is_blank, lower, value_of, is_comment};
ghost use Rattle.lexer.specs.Suffixes.{line_ends, word_ends, behind_line, behind_blanks, behind_letters, behind_digits, behind_word, words_at, At, first_is_word, Scanned, NumberAt};

// A number that was read, and the place behind it.
#[derive(Clone, Copy)]
pub struct Numeral {
    pub value: u64,
    pub next: usize,
}

// the largest number of 32 bits
const LARGEST: u64 = 4294967295;

// A space or a tab. O(1).
fn blank(b: u8) -> bool
    ensures { result ≡ is_blank b }
{
    b == b' ' || b == b'\t'
}

// Whether the line ends at a place. O(1).
fn line_ends(text: &[u8], at: usize) -> bool
    requires { at ≤ length text.now }
    ensures { result ≡ line_ends (drop at text.now) }
{
    matches!(&text[at..], [] | [b'\n', ..] | [b'\r', b'\n', ..])
}

// Whether a word ends at a place. O(1).
fn word_ends(text: &[u8], at: usize) -> bool
    requires { at ≤ length text.now }
    ensures { result ≡ word_ends (drop at text.now) }
{
    if line_ends(text, at) {
        return true;
    }
    blank(text[at])
}

// The first byte that is no space or tab. O(its place).
fn first_other(bytes: &[u8]) -> Option<usize>
    ensures { result ≡ position (λ b. not (is_blank b)) bytes.now }
{
    bytes.iter().position(|b| !blank(*b))
}

// The place behind spaces and tabs. O(their number).
fn skip_blanks(text: &[u8], at: usize) -> usize
    requires { at ≤ length text.now }
    ensures { At text.now result (behind_blanks (drop at text.now)) }
{
    match first_other(&text[at..]) {
        Some(k) => at + k,
        None => text.len(),
    }
}

// The first line feed. O(its place).
fn first_feed(bytes: &[u8]) -> Option<usize>
    ensures { result ≡ position is_line_feed bytes.now }
{
    bytes.iter().position(|b| *b == b'\n')
}

// The place behind the line: behind its line feed, or the text's end. O(length of the line).
pub fn next_line(text: &[u8], at: usize) -> usize
    requires { at ≤ length text.now }
    ensures { At text.now result (behind_line (drop at text.now)) }
{
    match first_feed(&text[at..]) {
        Some(k) => at + k + 1,
        None => text.len(),
    }
}

// The place of the next line, where this one has no further word. O(spaces and tabs).
pub fn line_over(text: &[u8], at: usize) -> Option<usize>
    requires { at ≤ length text.now }
    ensures { Scanned (not (not_empty (words_at text.now at))) text.now (behind_line (drop at text.now)) result }
{
    let i = skip_blanks(text, at);
    if line_ends(text, i) {
        Some(next_line(text, i))
    } else {
        None
    }
}

// Whether the line's words begin with %. O(spaces and tabs).
pub fn comment(text: &[u8], at: usize) -> bool
    requires { at ≤ length text.now }
    ensures { result ≡ is_comment (words_at text.now at) }
{
    let i = skip_blanks(text, at);
    text[i..].starts_with(b"%")
}

// The place behind the bytes of a word. O(length of the word).
fn word_end(text: &[u8], at: usize) -> usize
    requires { at ≤ length text.now }
    ensures { At text.now result (behind_letters (drop at text.now)) × (at ≤ result) }
{
    (at..text.len())
        .find(|i| word_ends(text, *i))
        .unwrap_or(text.len())
}

// Whether bytes, lowered, are the letters of a word of as many. O(length).
fn letters_lowered(bytes: &[u8], word: &[u8]) -> bool
    ensures { result ≡ list_all (λ p. eqb (to_ascii_lowercase p.0) p.1) (zip bytes.now word.now) }
{
    bytes
        .iter()
        .zip(word)
        .all(|(b, letter)| b.to_ascii_lowercase() == *letter)
}

// Whether some bytes, lowered, are those of a word. O(length).
fn same_lowered(bytes: &[u8], word: &[u8]) -> bool
    ensures { result ≡ same (map lower bytes.now) word.now }
{
    bytes.len() == word.len() && letters_lowered(bytes, word)
}

// The place behind the next word, where its letters, lowered, are those of this one. O(length of the word).
pub fn keyword(text: &[u8], at: usize, word: &[u8]) -> Option<usize>
    requires { (at ≤ length text.now) × (0 < length word.now) }
    ensures { Scanned (first_is_word word.now (words_at text.now at)) text.now (behind_word (drop at text.now)) result }
{
    let i = skip_blanks(text, at);
    let e = word_end(text, i);
    if same_lowered(&text[i..e], word) {
        Some(e)
    } else {
        None
    }
}

// The digits from a place on, as one number, 2^32 where it is beyond 32 bits. O(their number).
fn digits(text: &[u8], at: usize) -> Numeral
    requires { at ≤ length text.now }
    ensures { (at ≤ result.next) × At text.now result.next (behind_digits (drop at text.now)) × (result.value ≡ min 4294967296 (value_of (segment text.now at result.next))) }
{
    let mut value: u64 = 0;
    for (k, b) in text[at..].iter().enumerate() {
        if !b.is_ascii_digit() {
            return Numeral {
                value,
                next: at + k,
            };
        }
        value = (10 * value + u64::from(*b - b'0')).min(LARGEST + 1);
    }
    Numeral {
        value,
        next: text.len(),
    }
}

// The next word of the line as a number of at most 32 bits. O(length of the word).
pub fn number(text: &[u8], at: usize) -> Option<Numeral>
    requires { at ≤ length text.now }
    ensures { NumberAt text.now at result }
{
    let i = skip_blanks(text, at);
    let d = digits(text, i);
    if d.next == i || d.value > LARGEST || !word_ends(text, d.next) {
        return None;
    }
    Some(d)
}
