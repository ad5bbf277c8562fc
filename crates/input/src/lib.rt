// Input read into a buffer of a fixed size.
#![tactic(auto)]

ghost use Rattle.std.specs.Prelude.{◌≤◌, length, IfOk};

use std::io;
use std::io::Read;

// Reads until the buffer is full or the input ends, and gives how many bytes were read. They stand at the buffer's front.
// Cost: linear in the buffer's length.
pub fn read_full(reader: &mut impl Read, buffer: &mut [u8]) -> io::Result<usize>
    ensures { IfOk result (λ read. read ≤ length buffer.new) }
{
    let mut read = 0;
    // kept: a turn takes as many bytes as one read gives; std's `read_exact` refuses a short input (DECISIONS 162)
    while read < buffer.len() {
        let count = reader.read(&mut buffer[read..])?;
        if count == 0 {
            break;
        }
        read += count;
    }
    Ok(read)
}
