// Texts of at most N bytes, what is put into texts, and parts of them. What does not fit is left out.
use itoa::Buffer;

const BANNER: &'static [u8] = b"%%MatrixMarket matrix coordinate pattern symmetric";

// kept: an array with its length beside, for memory is fixed.
#[derive(Clone, Copy)]
pub(crate) struct Text<const N: usize> {
    bytes: [u8; N],
    length: usize,
}

// A text that both readers read.
pub(crate) type Short = Text<4096>;

impl<const N: usize> Text<N> {
    pub(crate) fn new() -> Text<N> {
        Text {
            bytes: [0; N],
            length: 0,
        }
    }

    pub(crate) fn as_slice(&self) -> &[u8] {
        self.bytes.get(..self.length).unwrap_or(&[])
    }

    pub(crate) fn len(&self) -> usize {
        self.as_slice().len()
    }

    pub(crate) fn push(&mut self, x: u8) {
        if let Some(byte) = self.bytes.get_mut(self.length) {
            *byte = x;
            self.length = self.length.saturating_add(1);
        }
    }

    pub(crate) fn extend(&mut self, piece: &[u8]) {
        for x in piece {
            self.push(*x);
        }
    }

    // The first bytes.
    pub(crate) fn cut(mut self, length: usize) -> Text<N> {
        self.length = self.length.min(length);
        self
    }

    // A byte, and more behind it.
    pub(crate) fn extend_with(&mut self, x: u8, piece: &[u8]) {
        self.push(x);
        self.extend(piece);
    }

    // A number behind a byte.
    fn push_number(&mut self, before: u8, x: usize) {
        let mut digits = Buffer::new();
        self.push(before);
        self.extend(digits.format(x).as_bytes());
    }

    // The line of a pair, plainly; the line feed comes first.
    pub(crate) fn push_pair(&mut self, row: usize, column: usize) {
        self.push_number(b'\n', row);
        self.push_number(b' ', column);
    }

    // The banner and the size line.
    pub(crate) fn push_head(&mut self, height: usize, width: usize, stated: usize) {
        self.extend(BANNER);
        self.push_pair(height, width);
        self.push_number(b' ', stated);
    }
}

// Piece k of pieces that each end at a byte, or the last at the end; nothing where there are not so many.
pub(crate) fn piece(s: &[u8], k: usize, end: u8) -> &[u8] {
    s.split(|x| *x == end).nth(k).unwrap_or(&[])
}

// A byte; 0 beyond the end.
pub(crate) fn byte(s: &[u8], at: usize) -> u8 {
    s.get(at).copied().unwrap_or(0)
}
