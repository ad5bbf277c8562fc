// A file of at most `LONGEST` bytes, of version 1 or 2, and its fields: the version, n, p, s, in version 2 the unknowns, and then each number of two
// bytes from the order on.
use meshes::first;
use naive::LONGEST;

// The fields that are called by name.
// kept: a field is its number, for files are damaged in each field, in each two and in drawn ones.
pub(crate) const VERSION: usize = 0;

pub(crate) const N: usize = 1;

pub(crate) const P: usize = 2;

pub(crate) const S: usize = 3;

pub(crate) const UNKNOWNS: usize = 4;

// `version` is the one that the file was made in, whatever its bytes say.
// kept: an array with its length beside, for memory is fixed.
#[derive(Clone, Copy)]
pub(crate) struct File {
    pub(crate) version: usize,
    pub(crate) bytes: [u8; LONGEST],
    pub(crate) length: usize,
}

// How many bytes the unknowns have.
fn unknowns_width(version: usize) -> u8 {
    if version == 2 { 2 } else { 0 }
}

// Where the order begins.
pub(crate) fn order_at(version: usize) -> usize {
    17 + usize::from(unknowns_width(version))
}

// The first field of the order.
pub(crate) fn order_field(version: usize) -> u8 {
    if version == 2 { 5 } else { 4 }
}

// Where field k stands. From the order on it is the same place in both versions: version 2 has a field of two bytes more before.
fn field_at(version: usize, k: usize) -> usize {
    let moved = usize::from(unknowns_width(version));
    match k {
        VERSION => 3,
        UNKNOWNS if version == 2 => 5,
        N => 5 + moved,
        P => 9 + moved,
        S => 13 + moved,
        _ => k % 8192 * 2 + 9,
    }
}

// How many bytes it has.
fn width(k: usize) -> usize {
    match k {
        N | P | S => 4,
        _ => 2,
    }
}

fn next(at: usize) -> usize {
    at % 65536 + 1
}

impl File {
    pub(crate) fn as_slice(&self) -> &[u8] {
        first(&self.bytes, self.length)
    }

    pub(crate) fn with_byte(mut self, at: usize, x: usize) -> File {
        if let Some(byte) = self.bytes.get_mut(at) {
            *byte = (x % 256) as u8;
        }
        self
    }

    fn byte(&self, at: usize) -> usize {
        self.bytes.get(at).map_or(0, |x| usize::from(*x))
    }

    // The file cut or continued, by what stands behind it, to a length; as it was where that is too long.
    pub(crate) fn cut(mut self, length: usize) -> File {
        if length <= LONGEST {
            self.length = length;
        }
        self
    }

    // How many fields the file has.
    pub(crate) fn fields(&self) -> usize {
        match (self.length % 8192).checked_sub(order_at(self.version)) {
            Some(behind) => usize::from(order_field(self.version)) + behind / 2,
            None => 0,
        }
    }

    // The number of two bytes.
    fn short(&self, at: usize) -> usize {
        self.byte(at) % 256 + self.byte(next(at)) % 256 * 256
    }

    fn with_short(self, at: usize, x: usize) -> File {
        self.with_byte(at, x % 256).with_byte(next(at), x / 256)
    }

    pub(crate) fn field(&self, k: usize) -> usize {
        let at = field_at(self.version, k);
        if width(k) == 4 {
            return self.short(at) % 65536 + self.short(next(next(at))) % 65536 * 65536;
        }
        self.short(at)
    }

    pub(crate) fn with_field(self, k: usize, x: usize) -> File {
        let at = field_at(self.version, k);
        if width(k) == 4 {
            return self
                .with_short(at, x % 65536)
                .with_short(next(next(at)), x / 65536);
        }
        self.with_short(at, x)
    }

    // The length that the file's own n, p and s ask for.
    fn asked(&self) -> usize {
        let lists = self.field(N) % 4294967296 * 4
            + self.field(P) % 4294967296 * 4
            + self.field(S) % 4294967296 * 2;
        order_at(self.version) % 65536 + lists
    }

    // The file cut or continued to the length that it asks for, where that is not too long.
    pub(crate) fn fitted(self) -> File {
        let length = self.asked();
        self.cut(length)
    }

    // Whether the bytes are a version 2 file's, sound or not behind the version: 17 or more that begin with NDP and the version.
    pub(crate) fn is_version_2(&self) -> bool {
        17 <= self.length && self.bytes.starts_with(b"NDP") && self.field(VERSION) == 2
    }

    // Fields k and m, each with the other's number.
    pub(crate) fn swapped(self, k: usize, m: usize) -> File {
        let x = self.field(k);
        let y = self.field(m);
        self.with_field(k, y).with_field(m, x)
    }

    // Field k with so much more and field m with so much less, cut to the field's width.
    pub(crate) fn moved(self, k: usize, m: usize, amount: usize) -> File {
        let by = amount % 4294967296;
        let x = self.field(k) % 4294967296 + by;
        let f = self.with_field(k, x);
        let y = f.field(m) % 4294967296 + (4294967296 - by);
        f.with_field(m, y)
    }
}
