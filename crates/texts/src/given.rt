// The lines of standard input, which says itself how it is to be read.
use crate::counts::Counts;
use crate::damage::every_damage;
use crate::ring::try_ring;
use crate::text::{Short, byte, piece};
use crate::trial::try_text;

// Number k of a line, counted from 0 as its words are.
pub(crate) fn number(line: &[u8], k: usize) -> usize {
    let mut x = 0usize;
    for digit in piece(line, k, b' ') {
        x = x % 4294967296 * 10 + usize::from(*digit % 16);
    }
    x
}

// The refusal, or 0, that a line says is the answer.
// kept: a refusal is known by its number in the documents, as the input says it.
pub(crate) fn known(line: &[u8]) -> u32 {
    (number(line, 1) % 100) as u32
}

// The byte that one of a line stands for. A question mark stands for `any`.
fn meant(x: u8, any: u8) -> u8 {
    match x {
        b'|' => b'\n',
        b'<' => b'\r',
        b'>' => b'\t',
        b'?' => any,
        b'!' => 0,
        b'(' => 11,
        b')' => 12,
        b'[' => 26,
        b']' => 160,
        b'{' => 187,
        b'}' => 191,
        b'^' => 227,
        b'~' => 239,
        b'`' => 255,
        _ => x,
    }
}

// The text of a line.
fn told(line: &[u8], any: u8) -> Short {
    let mut t = Short::new();
    for x in line.get(5..).unwrap_or(&[]) {
        t.push(meant(*x, any));
    }
    t
}

// Every value of a byte.
fn every_value(c: &mut Counts, line: &[u8]) {
    for x in 0..=255u8 {
        try_text(c, &told(line, x), None);
    }
}

fn try_line(c: &mut Counts, line: &[u8]) {
    let known = Some(known(line));
    let t = told(line, 0);
    match byte(line, 0) {
        b'=' => try_text(c, &t, known),
        b'*' => {
            try_text(c, &t, known);
            every_damage(c, &t);
        }
        b'?' => every_value(c, line),
        b'@' => try_ring(c, line),
        _ => {}
    }
}

pub(crate) fn all(c: &mut Counts, lines: &[u8]) {
    for (k, line) in lines.split(|x| *x == b'\n').enumerate() {
        c.begin(k.saturating_add(1));
        try_line(c, line);
    }
}
