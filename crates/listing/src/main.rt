// The listing program of document 01: from standard input to standard output.
// Cost: that of `text::list` on at most 5,127 bytes.
#![tactic(auto)]

use input::read_full;
use std::io;

// The longest input within the limits has 2 + 4 · 257 + 2 · 2,048 = 5,126 bytes. One byte more is read: whatever follows it, the input is then over
// its size or has an incomplete number, refusal 20 either way.
fn main(rt: HostRuntime) -> io::Result<()> {
    let mut input = [0u8; 5127];
    let read = read_full(&mut rt.stdin(), &mut input)?;
    rt.write_all(text::list(&input[..read]).as_bytes())
}
