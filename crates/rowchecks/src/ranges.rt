// Numbers for the parts by which a part and all parts below it are consecutive, so that lying in a part or in an ancestor of it is a range test; and
// the range of each position's part.
ghost use Rattle.std.specs.Prelude.{◌≡◌, List, ℕ, ◌+◌, ◌≤◌, ◌<◌, length, get_or};
ghost use Rattle.plan.specs.Lists.{total};
ghost use Rattle.plan.specs.Mesh.{max_nodes};
ghost use Rattle.plan.specs.Parts.{part_of};
ghost use Rattle.rowchecks.specs.Rows.{in_range, SoundParts, Ranges};
ghost use Rattle.rowchecks.specs.Numbering.{SoundParents, rooted, width_after, width, Numbered};

use plan::Plan;

// The parent r of one of p parts, p for none: the root of all parts. O(1).
fn parent_or_root(p: usize, r: u16) -> usize
    ensures { result ≡ rooted p r }
{
    if r == Plan::NO_PARENT {
        return p;
    }
    r as usize
}

// An array with a place for each part, and one for the root, the same number at each. O(4,096).
fn filled_with_root(x: u16) -> [u16; Plan::NODES + 1]
    ensures { (length result ≡ max_nodes + 1) × ((b : ℕ) → b ≤ max_nodes → get_or result b 0 ≡ x) }
{
    [x; Plan::NODES + 1]
}

// How many parts are each part or below it. `widths` is lent with 1 at every place. A parent is a later part, so one pass will do. O(p).
fn add_widths(parents: &[u16], widths: &mut [u16])
    requires { SoundParents parents.now × (length parents.now < length widths.old) × ((b : ℕ) → b ≤ length parents.now → get_or widths.old b 0 ≡ 1) }
    ensures { (b : ℕ) → b ≤ length parents.now → get_or widths.new b 0 ≡ width_after parents.now (length parents.now) b }
{
    for q in 0..parents.len() {
        let r = parent_or_root(parents.len(), parents[q]);
        widths[r] = widths[r] + widths[q];
    }
}

// The first number of each part's range and the end of it, from the last part to the first. The widths are taken back one by one, so that part q's
// parent still has those of the earlier parts alone: behind them part q begins. `firsts` is lent with 0 for the root. O(p).
fn number(parents: &[u16], widths: &mut [u16], firsts: &mut [u16], lasts: &mut [u16])
    requires sound_parents { SoundParents parents.now × (length parents.now < length widths.old) × (length parents.now < length firsts.old) × (length parents.now ≤ length lasts.old) }
    requires by_index { ((b : ℕ) → b ≤ length parents.now → get_or widths.old b 0 ≡ width_after parents.now (length parents.now) b) × (get_or firsts.old (length parents.now) 0 ≡ 0) }
    ensures { Numbered parents.now firsts.new × ((q : ℕ) → q < length parents.now → get_or lasts.new q 0 ≡ get_or firsts.new q 0 + width parents.now q) }
{
    for q in (0..parents.len()).rev() {
        let r = parent_or_root(parents.len(), parents[q]);
        widths[r] = widths[r] - widths[q];
        firsts[q] = firsts[r] + widths[r];
        lasts[q] = firsts[q] + widths[q];
    }
}

// One range at `count` positions from position `at` on. O(count).
fn fill(at: usize, count: usize, low: u16, end: u16, lows: &mut [u16], ends: &mut [u16])
    requires { (at + count ≤ length lows.old) × (at + count ≤ length ends.old) }
    ensures { ((i : ℕ) → at ≤ i → i < at + count → (get_or lows.new i 0 ≡ low) × (get_or ends.new i 0 ≡ end)) × ((i : ℕ) → i < at → (get_or lows.new i 0 ≡ get_or lows.old i 0) × (get_or ends.new i 0 ≡ get_or ends.old i 0)) }
{
    let behind = at + count;
    lows[at..behind].fill(low);
    ends[at..behind].fill(end);
}

// To each position the range of its part. O(parts + positions).
fn spread(sizes: &[u16], firsts: &[u16], lasts: &[u16], lows: &mut [u16], ends: &mut [u16])
    requires { (length sizes.now ≤ length firsts.now) × (length sizes.now ≤ length lasts.now) × (total sizes.now ≤ length lows.old) × (total sizes.now ≤ length ends.old) }
    ensures { (i : ℕ) → i < total sizes.now → (get_or lows.new i 0 ≡ get_or firsts.now (part_of sizes.now i) 0) × (get_or ends.new i 0 ≡ get_or lasts.now (part_of sizes.now i) 0) }
{
    let mut at: usize = 0;
    for q in 0..sizes.len() {
        let size = sizes[q] as usize;
        fill(at, size, firsts[q], lasts[q], lows, ends);
        at += size;
    }
}

// The range of each position's part. n is for the contract alone. O(4,096 + n).
pub(crate) fn ranges(n: usize, sizes: &[u16], parents: &[u16], lows: &mut [u16], ends: &mut [u16])
    requires { SoundParts n sizes.now parents.now × (n ≤ length lows.old) × (n ≤ length ends.old) }
    ensures { Ranges n sizes.now parents.now lows.new ends.new }
{
    let mut widths = filled_with_root(1);
    let mut firsts = filled_with_root(0);
    let mut lasts = filled_with_root(0);
    add_widths(parents, &mut widths);
    number(parents, &mut widths, &mut firsts, &mut lasts);
    spread(sizes, &firsts, &lasts, lows, ends);
}

// The ranges of the parts of n positions, as lent.
#[derive(Clone, Copy)]
pub(crate) struct PartRanges<'a> {
    pub(crate) n: usize,
    pub(crate) lows: &'a [u16],
    pub(crate) ends: &'a [u16],
    ghost low_room: { n ≤ length lows.now },
    ghost end_room: { n ≤ length ends.now },
}

impl<'a> PartRanges<'a> {
    // Whether the range of position i holds a number. O(1).
    pub(crate) fn holds(&self, i: usize, x: u16) -> bool
        requires { i < self.now.n }
        ensures { result ≡ in_range x (get_or self.now.lows.now i 0) (get_or self.now.ends.now i 0) }
    {
        if x < self.lows[i] {
            return false;
        }
        x < self.ends[i]
    }
}
