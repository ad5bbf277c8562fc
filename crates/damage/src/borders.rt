// Numbers at which a check may change its mind.
use meshes::{less, more};
use plan::Plan;

// How many borders there are for a number of two bytes, which are the first ones, and for one of four.
pub(crate) const SHORT: usize = 20;

pub(crate) const LONG: usize = 26;

// The borders of a number that was `value`, in a plan with n nodes, p parts and s slots.
pub(crate) fn borders(value: usize, n: usize, p: usize, s: usize) -> [usize; LONG] {
    [
        0,
        1,
        2,
        less(value),
        more(value),
        less(n),
        n,
        more(n),
        less(p),
        p,
        more(p),
        s,
        more(s),
        255,
        256,
        Plan::NODES,
        Plan::NODES + 1,
        32768,
        65534,
        65535,
        naive::most_slots(n),
        more(naive::most_slots(n)),
        65536,
        value % 4294967296 + 65536,
        2147483648,
        4294967295,
    ]
}
