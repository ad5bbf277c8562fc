// Parts of lent buffers, and whether a buffer holds what it should.
ghost use Rattle.std.specs.Prelude.{◌≡◌, take};

// The first k entries, or all where there are not so many.
// kept: two functions, one to read and one to write, for nothing is generic over both kinds of reference.
pub fn first<'a, T>(s: &'a [T], k: usize) -> &'a [T]
    ensures { result.now ≡ take k s.now }
{
    s.get(..k).unwrap_or(s)
}

pub fn front<'a, T>(s: &'a mut [T], k: usize) -> &'a mut [T]
    ensures { result.now ≡ take k s.old }
{
    if k <= s.len() {
        return &mut s[0..k];
    }
    s
}

// Whether the first entries, so many, are those of `want`, as far as it goes, and all others are `rest`.
pub fn holds<T: PartialEq>(buffer: &[T], want: &[T], used: usize, rest: &T) -> bool {
    let k = used.min(want.len()).min(buffer.len());
    buffer[..k] == want[..k] && buffer[k..].iter().all(|x| x == rest)
}
