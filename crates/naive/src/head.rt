// What stands before the order of a plan file: the magic (document 01: mark), the version, in version 2 the number of unknowns, and n, p and s; and
// the checks that need no more of a file, 10 to 14 with 28 among them. Right for every file.
ghost use Rattle.std.specs.Prelude.{◌≡◌, cond, ◌-◌, ◌*◌, ◌/◌, ltb};

use crate::lists::item;
use crate::refused::{Refused, refused_if};

#[derive(Clone, Copy)]
pub(crate) struct Head {
    pub(crate) version: usize,
    pub(crate) unknowns: usize,
    pub(crate) n: usize,
    pub(crate) p: usize,
    pub(crate) s: usize,
}

// The number of two bytes.
pub(crate) fn number16(bytes: &[u8], at: usize) -> u16 {
    u16::from_le_bytes([item(bytes, at), item(bytes, at.saturating_add(1))])
}

// The number of four bytes.
fn number32(bytes: &[u8], at: usize) -> usize {
    usize::from(number16(bytes, at)) + usize::from(number16(bytes, at.saturating_add(2))) * 65536
}

// n(n − 1)/2 for n of at most 4,096, and 0 beyond.
pub fn most_slots(n: usize) -> usize
    ensures { result ≡ cond (ltb 4096 n) 0 (n * (n - 1) / 2) }
{
    if 4096 < n {
        return 0;
    }
    n * n.saturating_sub(1) / 2
}

// 28: "a number of unknowns outside 1 to 6".
pub(crate) fn unknowns_fail(unknowns: usize) -> bool {
    unknowns < 1 || 6 < unknowns
}

// 13: "n not 1 to 4,096, p not 1 to n, or s above n(n − 1)/2".
pub(crate) fn numbers_fail(n: usize, p: usize, s: usize) -> bool {
    n < 1 || 4096 < n || p < 1 || n < p || most_slots(n) < s
}

// Where n stands: "16 bits at bytes 5 and 6" of a version 2 file are its unknowns, "and everything after moves by two".
fn n_at(version: usize) -> usize {
    if version == 2 {
        return 7;
    }
    5
}

// Where the order begins.
pub(crate) fn order_at(version: usize) -> usize {
    n_at(version).saturating_add(12)
}

// Version 1 is taken "as one unknown".
fn unknowns_in(bytes: &[u8], version: usize) -> usize {
    if version == 2 {
        return usize::from(number16(bytes, 5));
    }
    1
}

// The head that stands in the bytes.
fn head_in(bytes: &[u8]) -> Head {
    let version = usize::from(number16(bytes, 3));
    let at = n_at(version);
    Head {
        version: version,
        unknowns: unknowns_in(bytes, version),
        n: number32(bytes, at),
        p: number32(bytes, at.saturating_add(4)),
        s: number32(bytes, at.saturating_add(8)),
    }
}

// The length of the file, for n, p and s that pass 13: 17, or in version 2 19, + 4n + 4p + 2s.
fn length(h: Head) -> usize {
    order_at(h.version).saturating_add(h.n % 65536 * 4 + h.p % 65536 * 4 + h.s % 16777216 * 2)
}

// The first of 10, 11, 12, and 10 for version 2, that fails, where the reader knows the versions from 1 to `newest`.
fn check_version(bytes: &[u8], newest: usize) -> Result<(), Refused> {
    refused_if(bytes.len() < 17, 10)?;
    refused_if(!bytes.starts_with(b"NDP"), 11)?;
    let version = usize::from(number16(bytes, 3));
    refused_if(version < 1 || newest < version, 12)?;
    refused_if(version == 2 && bytes.len() < 19, 10)
}

// The head of a file that passes these, then 28, 13 and 14.
pub(crate) fn read_head(bytes: &[u8], newest: usize) -> Result<Head, Refused> {
    check_version(bytes, newest)?;
    let h = head_in(bytes);
    refused_if(unknowns_fail(h.unknowns), 28)?;
    refused_if(numbers_fail(h.n, h.p, h.s), 13)?;
    refused_if(bytes.len() != length(h), 14)?;
    Ok(h)
}
