// Entries of lent lists. An entry beyond the end is 0.
use crate::sets::only;

pub(crate) fn item<T: Copy + Default>(list: &[T], i: usize) -> T {
    list.get(i).copied().unwrap_or_default()
}

pub(crate) fn entry(list: &[u16], i: usize) -> usize {
    usize::from(item(list, i))
}

// The entries from one place up to, not including, another; none where there are not so many.
pub(crate) fn between<'a, T>(list: &'a [T], first: usize, end: usize) -> &'a [T] {
    list.get(first..end).unwrap_or(&[])
}

// What is lent for v's list, or for column v.
pub(crate) fn entries<'a, T>(starts: &[u32], list: &'a [T], v: usize) -> &'a [T] {
    let end = item(starts, v.saturating_add(1)) as usize;
    between(list, item(starts, v) as usize, end)
}

// The nodes in a list.
pub(crate) fn nodes_in(list: &[u16]) -> u64 {
    list.iter().fold(0u64, |s, v| s | only(usize::from(*v)))
}

// Whether one of the first n lists ends before it begins.
pub(crate) fn some_falls(n: usize, starts: &[u32]) -> bool {
    starts.windows(2).take(n).any(|w| !w.is_sorted())
}

// Whether the numbers of a list are strictly ascending.
pub(crate) fn ascending(list: &[u16]) -> bool {
    list.iter().zip(list.iter().skip(1)).all(|(x, y)| x < y)
}

// The sum of the first k entries.
pub(crate) fn total(list: &[u16], k: usize) -> usize {
    list.iter()
        .take(k)
        .fold(0usize, |t, x| t.saturating_add(usize::from(*x)))
}

// How often x stands in the list.
pub(crate) fn times<T: PartialEq>(list: &[T], x: &T) -> usize {
    list.iter().filter(|y| *y == x).count()
}
