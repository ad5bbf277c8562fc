// Values of many kinds, drawn from a seed: by kind and place, for the diagonal, for the slots and for the vector.
use crate::filling::{Filling, Number};
use meshes::draw;

// The kinds: sound; sound for few rows only; denormal; tiny; huge; of every magnitude; sound with a few special slots; special values alone; slots of
// either zero; and small whole numbers, with which a pivot can be exactly 0.
#[derive(Clone, Copy)]
pub(crate) enum Kind {
    Sound,
    Close,
    Denormal,
    Tiny,
    Huge,
    EveryMagnitude,
    FewSpecial,
    Special,
    Zeros,
    Small,
}

impl Kind {
    pub(crate) const ALL: [Kind; 10] = [
        Kind::Sound,
        Kind::Close,
        Kind::Denormal,
        Kind::Tiny,
        Kind::Huge,
        Kind::EveryMagnitude,
        Kind::FewSpecial,
        Kind::Special,
        Kind::Zeros,
        Kind::Small,
    ];

    // The kind of the vector: each, over the seeds, with each kind of values.
    fn of_vector(self, seed: u64) -> Kind {
        Kind::ALL[(self as usize + seed as usize % 10) % 10]
    }
}

// A drawn number of 21 bits.
fn bits(seed: u64, at: usize, what: usize) -> f64 {
    (draw(seed, at, what, 2097152) % 4294967296) as u32 as f64
}

// The remainders of such a number by 8 and by 5. They are taken of whole numbers: `%` of two `f64` calls the C library.
fn remainder8(seed: u64, at: usize, what: usize) -> f64 {
    (draw(seed, at, what, 2097152) % 8) as u32 as f64
}

fn remainder5(seed: u64, at: usize, what: usize) -> f64 {
    (draw(seed, at, what, 2097152) % 5) as u32 as f64
}

// From 1 up to 2, with every bit drawn.
fn unit(seed: u64, at: usize) -> f64 {
    let high = bits(seed, at, 20) * 4398046511104.0;
    let middle = bits(seed, at, 21) * 2097152.0;
    1.0 + (high + middle + bits(seed, at, 22)) / 9223372036854775808.0
}

// Values at which something may change, positive ones first.
const SPECIALS: usize = 12;

fn special(k: usize) -> f64 {
    let specials = [
        5e-324,
        2.2250738585072014e-308,
        1.7976931348623157e308,
        1.0,
        0.0,
        -0.0,
        -5e-324,
        -1.0,
        -1.7976931348623157e308,
        1.0 / 0.0,
        -1.0 / 0.0,
        0.0 / 0.0,
    ];
    specials[k % SPECIALS]
}

// Powers of ten.
const MAGNITUDES: [f64; 9] = [1e-308, 1e-200, 1e-100, 1e-8, 1.0, 1e8, 1e100, 1e200, 1e308];

fn signed(x: f64, negative: bool) -> f64 {
    if negative {
        return -x;
    }
    x
}

fn diagonal_value(kind: Kind, seed: u64, at: usize) -> f64 {
    let x = unit(seed, at);
    match kind {
        Kind::Sound | Kind::FewSpecial => 64.0 + x,
        Kind::Close => x * 4.0,
        Kind::Denormal => x * 1e-318,
        Kind::Tiny => x * 1e-302,
        Kind::Huge => x * 0.875e308,
        Kind::EveryMagnitude => x * MAGNITUDES[draw(seed, at, 23, 9) % 9],
        Kind::Special => special(draw(seed, at, 24, SPECIALS)),
        Kind::Zeros => special(draw(seed, at, 24, 4)),
        Kind::Small => 1.0 + remainder8(seed, at, 25),
    }
}

fn slot_value(kind: Kind, seed: u64, at: usize) -> f64 {
    let x = signed(unit(seed, at), draw(seed, at, 26, 2) == 0);
    match kind {
        Kind::Sound | Kind::Close => x,
        Kind::Denormal => x * 1e-320,
        Kind::Tiny => x * 1e-306,
        Kind::Huge => {
            if draw(seed, at, 31, 4) == 0 {
                return x * 0.8e308;
            }
            x * 1e306
        }
        Kind::EveryMagnitude => x * MAGNITUDES[draw(seed, at, 27, 9) % 9],
        Kind::FewSpecial => {
            if draw(seed, at, 28, 8) == 0 {
                return special(draw(seed, at, 29, SPECIALS));
            }
            x
        }
        Kind::Special => special(draw(seed, at, 29, SPECIALS)),
        Kind::Zeros => signed(0.0, x < 0.0),
        Kind::Small => remainder5(seed, at, 30) - 2.0,
    }
}

// Puts the value of each place into a list.
fn fill<F: Fn(usize) -> f64>(list: &mut [f64], value: F)
    requires { F.IsAlwaysCallable value }
{
    for (at, x) in list.iter_mut().enumerate() {
        *x = value(at);
    }
}

impl Filling {
    // The filling with values of a kind, in the buffers and behind them, a vector of a kind, and a drawn pair. The vector's values are as for slots, at
    // places behind theirs.
    pub(crate) fn with_values(mut self, kind: Kind, seed: u64) -> Filling {
        let n = self.number(Number::Nodes);
        let other = kind.of_vector(seed);
        fill(&mut self.diagonal, |i| diagonal_value(kind, seed, i));
        fill(&mut self.values, |e| slot_value(kind, seed, e % 2016 + 64));
        fill(&mut self.vector, |i| slot_value(other, seed, i % 64 + 2080));
        self.asking(
            draw(seed, kind as usize, 32, n),
            draw(seed, kind as usize, 33, n),
        )
    }

    // The filling with a special value on the diagonal.
    pub(crate) fn with_special(mut self, j: usize, k: usize) -> Filling {
        self.diagonal[j % 64] = special(k);
        self
    }
}
