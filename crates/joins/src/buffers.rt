// Buffers that hold another number in each entry before they are lent, and whether they hold what they should afterwards.

// What entry i of a buffer holds before: no node's number, and no start.
pub(crate) trait Stale {
    fn stale(i: usize) -> Self;
}

impl Stale for u16 {
    fn stale(i: usize) -> u16 {
        (60000 + i % 4999) as u16
    }
}

impl Stale for u32 {
    fn stale(i: usize) -> u32 {
        (70000 + i % 4999) as u32
    }
}

pub(crate) fn put_stale<T: Stale + Copy>(list: &mut [T]) {
    for (i, entry) in list.iter_mut().enumerate() {
        *entry = T::stale(i);
    }
}

// What entry i should be: that of `want` where it is used, and as found elsewhere.
fn wanted<T: Stale + Copy>(want: &[T], used: usize, i: usize) -> T {
    match want.get(i) {
        Some(entry) if i < used => *entry,
        _ => T::stale(i),
    }
}

pub(crate) fn holds<T: Stale + Copy + PartialEq>(list: &[T], want: &[T], used: usize) -> bool {
    list.iter()
        .enumerate()
        .all(|(i, entry)| *entry == wanted(want, used, i))
}
