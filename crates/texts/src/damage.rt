// A text damaged in one byte, cut off at every byte, and damaged in every way.
use crate::counts::Counts;
use crate::text::{Short, byte};
use crate::trial::try_text;
use meshes::less;

// Bytes that tell: separators and near ones, controls, digits and near ones, marks, letters.
const TELLING: [u8; 30] = *b" \t\n\r\x0b\x0c\x00\x1f\x7f\x80\xa0\xffo059/:%#+-.,eEmMzZ";

const BITS: [u8; 8] = [1, 2, 4, 8, 16, 32, 64, 128];

// Damages to a byte: another one instead or before it, another bit, the byte left out or given twice, or changed places with the one before, and the
// text cut off there.
#[derive(Clone, Copy)]
pub(crate) enum Damage {
    Instead(u8),
    Before(u8),
    Bit(u8),
    LeftOut,
    Twice,
    Swapped,
    Cut,
}

// How many damages to a byte there are, besides the cut, which is the last.
pub(crate) const DAMAGES: usize = 71;

impl Damage {
    pub(crate) fn nth(k: usize) -> Damage {
        match k {
            0..30 => Damage::Instead(TELLING[k % 30]),
            30..60 => Damage::Before(TELLING[k % 30]),
            60..68 => Damage::Bit(BITS[(k - 60) % 8]),
            68 => Damage::LeftOut,
            69 => Damage::Twice,
            70 => Damage::Swapped,
            _ => Damage::Cut,
        }
    }

    // The text with the damage at a place.
    pub(crate) fn put(self, t: &Short, at: usize) -> Short {
        let bytes = t.as_slice();
        let x = byte(bytes, at);
        let behind = bytes.get(at..).unwrap_or(&[]);
        let rest = behind.get(1..).unwrap_or(&[]);
        let mut u = t.cut(at);
        match self {
            Damage::Instead(y) => u.extend_with(y, rest),
            Damage::Before(y) => u.extend_with(y, behind),
            Damage::Bit(bit) => u.extend_with(x ^ bit, rest),
            Damage::LeftOut => u.extend(rest),
            Damage::Twice => u.extend_with(x, behind),
            Damage::Swapped => {
                u = t.cut(less(at));
                u.push(x);
                u.extend_with(byte(bytes, less(at)), rest);
            }
            Damage::Cut => {}
        }
        u
    }
}

// Every damage at a place.
fn every_damage_at(c: &mut Counts, t: &Short, at: usize) {
    for k in 0..DAMAGES {
        try_text(c, &Damage::nth(k).put(t, at), None);
    }
}

// Every damage at every place and at the text's end, where nothing is cut off.
pub(crate) fn every_damage(c: &mut Counts, t: &Short) {
    for at in 0..t.len() {
        every_damage_at(c, t, at);
        try_text(c, &Damage::Cut.put(t, at), None);
    }
    every_damage_at(c, t, t.len());
}
