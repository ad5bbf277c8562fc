// Texts that a seed draws: a pattern with its pairs in any order, written in any way that is allowed, and the same with one damage and with two.
use crate::counts::Counts;
use crate::damage::{DAMAGES, Damage};
use crate::draft::{Draft, Pair};
use crate::hub::{hub_degree, with_hub};
use crate::style::written;
use crate::text::Short;
use crate::trial::try_text;
use meshes::{draw, less, more};
use plan::Plan;

// The subjects of the first pattern and of the first with a hub, behind every line of the input.
const FIRST: usize = 10000;

const FIRST_HUB: usize = 20000;

// A sound draft: of at most 12 nodes, one in eight of at most 60; the pairs are some tenths of all, in an order that the seed draws.
// kept: one number for row and column, for a function has one loop.
fn sound(seed: u64) -> Draft {
    let most = if draw(seed, 1, 31, 8) == 0 { 60 } else { 12 };
    let n = more(draw(seed, 2, 31, most));
    let tenths = more(draw(seed, 0, 31, 10));
    let mut d = Draft::new(n);
    for k in 0..n % 65536 * 64 {
        let row = k / 64 + 1;
        let s = k % 64;
        if s < row && draw(seed, row, s, 10) < tenths {
            let column = s + 1;
            d.push_allowed(seed, Pair { row, column });
        }
    }
    d
}

// Numbers at which a check may change its mind.
fn borders(n: usize) -> [usize; 7] {
    [
        0,
        more(n),
        less(n),
        n % 4294967296 + 65536,
        4294967295,
        4294967296,
        n % 4294967296 + 4294967296,
    ]
}

fn resized(mut d: Draft, n: usize) -> Draft {
    d.height = n;
    d.width = n;
    d
}

// The draft with a size line, or a count of pairs, that a number draws.
// kept: damages are numbers, here and below, for seeds draw them, and each is told apart in one `match` alone.
fn other_size(d: &Draft, what: usize) -> Draft {
    let mut e = *d;
    match what {
        0 => e.height = more(d.height),
        1 => e.width = more(d.width),
        2 => e.stated = more(d.stated),
        3 => e.stated = less(d.stated),
        4 => e = resized(e, 0),
        5 => e = resized(e, 4096),
        6 => e = resized(e, 4097),
        7 => e = resized(e, 4294967295),
        8 => e = resized(e, 4294967296),
        9 => e.stated = d.stated % 4294967296 + 4294967296,
        10 => e = resized(e, less(d.height)),
        _ => e.pop(),
    }
    e
}

// The draft with another pair k, which a number draws: an index at a border, the pair turned about, or one that stands elsewhere too.
fn other_pair(d: &Draft, seed: u64, k: usize, what: usize) -> Draft {
    let mut e = *d;
    let Pair { row, column } = d.pair(k);
    let x = borders(d.height)[draw(seed, 4, 32, 7) % 7];
    match what {
        0 => e.put(k, Pair { row: x, column }),
        1 => e.put(k, Pair { row, column: x }),
        2 => {
            let turned = Pair {
                row: column,
                column: row,
            };
            e.put(k, turned);
        }
        3 => e.push(Pair { row, column }),
        4 => e.push(d.pair(0)),
        5 => e.put(k, d.pair(draw(seed, 3, 32, d.count()))),
        _ => {
            let last = Pair {
                row: more(draw(seed, 5, 32, d.height)),
                column: 1,
            };
            e.push(last);
        }
    }
    e
}

// The draft with one damage that the seed draws.
fn damaged_draft(d: &Draft, seed: u64) -> Draft {
    if draw(seed, 0, 33, 3) == 0 {
        return other_size(d, draw(seed, 1, 33, 12));
    }
    other_pair(d, seed, draw(seed, 2, 33, d.count()), draw(seed, 3, 33, 7))
}

// The text with one damage to a byte that the seed draws.
fn damaged_text(t: &Short, seed: u64) -> Short {
    Damage::nth(draw(seed, 1, 34, DAMAGES)).put(t, draw(seed, 0, 34, t.len()))
}

// The text of a draft, whose answer is known, written as the seed draws; the same with one damage and with two to what it says, to how, and to both.
fn try_draft(c: &mut Counts, d: &Draft, known: u32, seed: u64) {
    let next = seed % 4294967296 + 7;
    let once = damaged_draft(d, seed);
    let t = written(d, seed);
    let u = written(&once, seed);
    let v = damaged_text(&t, seed);
    try_text(c, &t, Some(known));
    try_text(c, &u, None);
    try_text(c, &written(&damaged_draft(&once, next), seed), None);
    try_text(c, &v, None);
    try_text(c, &damaged_text(&v, next), None);
    try_text(c, &damaged_text(&u, seed), None);
}

fn all_sound(c: &mut Counts) {
    for number in 0..2000usize {
        let seed = (number * 5003) as u64;
        c.begin(FIRST + number);
        try_draft(c, &sound(seed), 0, seed);
    }
}

// What the reader answers to a draft with a hub.
fn hub_answer(seed: u64) -> u32 {
    if Plan::NEIGHBOURS < hub_degree(seed) {
        26
    } else {
        0
    }
}

fn all_hubs(c: &mut Counts) {
    for number in 0..400usize {
        let seed = (number * 5009) as u64;
        c.begin(FIRST_HUB + number);
        try_draft(c, &with_hub(seed), hub_answer(seed), seed);
    }
}

pub(crate) fn all(c: &mut Counts) {
    all_sound(c);
    all_hubs(c);
}
