// A draft written as a text, in ways that are all allowed: the seed draws each separator, line end, comment and letter case.
use crate::draft::Draft;
use crate::text::{Short, byte};
use meshes::{draw, less};

// What is put before a number, in place of a space and of a line feed, and behind the first line's.
#[derive(Clone, Copy)]
enum Place {
    Zeros,
    Gap,
    End,
    Comment,
}

const ZEROS: [&'static [u8]; 16] = [
    b"",
    b"",
    b"",
    b"",
    b"",
    b"",
    b"",
    b"",
    b"",
    b"",
    b"",
    b"",
    b"",
    b"",
    b"",
    b"00000000000",
];

const GAPS: [&'static [u8]; 9] = [b" ", b" ", b" ", b" ", b" ", b" ", b"\t", b"  ", b" \t\t "];

const ENDS: [&'static [u8]; 10] = [
    b"\n",
    b"\n",
    b"\n",
    b"\n",
    b"\n",
    b"\r\n",
    b" \t\n",
    b"\n\n",
    b"\t\r\n \r\n",
    b"\n \t",
];

const COMMENTS: [&'static [u8]; 6] = [
    b"",
    b"",
    b"%\n",
    b" \t% 1 1 1\r\n",
    b"%%\x00\xff\r 2 1\n\n",
    b"% a|b\n%c\n",
];

// One text in three has nothing but single spaces and line feeds.
fn choice(seed: u64, at: usize, what: usize, bound: usize) -> usize {
    if draw(seed, 0, 40, 3) == 0 {
        return 0;
    }
    draw(seed, at, what, bound)
}

impl Place {
    // The piece that the seed draws for a place of the text.
    fn piece(self, seed: u64, at: usize) -> &'static [u8] {
        match self {
            Place::Zeros => ZEROS[choice(seed, at, 44, 16) % 16],
            Place::Gap => GAPS[choice(seed, at, 41, 9) % 9],
            Place::End => ENDS[choice(seed, at, 42, 10) % 10],
            Place::Comment => COMMENTS[choice(seed, at, 43, 6) % 6],
        }
    }

    fn push(self, t: &mut Short, seed: u64) {
        let piece = self.piece(seed, t.len());
        t.extend(piece);
    }
}

// A letter in a case that the seed draws; any other byte as it is.
fn cased(x: u8, seed: u64, i: usize) -> u8 {
    if b'a' <= x && choice(seed, i, 45, 2) == 1 {
        return x - 32;
    }
    x
}

// Puts byte i of a plain text, in a way that the seed draws. The first line ends at 50; behind it are numbers.
fn push_byte(t: &mut Short, plain: &[u8], i: usize, seed: u64) {
    match byte(plain, i) {
        b' ' => Place::Gap.push(t, seed),
        b'\n' => {
            Place::End.push(t, seed);
            if i == 50 {
                Place::Comment.push(t, seed);
            }
        }
        x if 50 < i => {
            if byte(plain, less(i)) < b'0' {
                Place::Zeros.push(t, seed);
            }
            t.push(cased(x, seed, i));
        }
        x => t.push(cased(x, seed, i)),
    }
}

// kept: what is put for a byte is told by its place and by the byte before it, so that the loop goes over places.
fn styled(plain: &[u8], seed: u64) -> Short {
    let mut t = Short::new();
    for i in 0..plain.len() {
        push_byte(&mut t, plain, i, seed);
    }
    t
}

// What a draft says, plainly.
fn plain(d: &Draft) -> Short {
    let mut t = Short::new();
    t.push_head(d.height, d.width, d.stated);
    for pair in d.pairs() {
        t.push_pair(pair.row, pair.column);
    }
    t
}

// The last line's end may be missing.
pub(crate) fn written(d: &Draft, seed: u64) -> Short {
    let mut t = styled(plain(d).as_slice(), seed);
    if choice(seed, 1, 46, 3) != 2 {
        Place::End.push(&mut t, seed);
    }
    t
}
