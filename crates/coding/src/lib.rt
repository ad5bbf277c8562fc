// Little-endian numbers of 16 and 32 bits: read from a place in bytes, and written to the front of a part of a buffer.
#![tactic(auto)]

ghost use Rattle.std.specs.Prelude.{◌≡◌, ◌+◌, ◌-◌, ◌*◌, ◌≤◌, ◌<◌, length};
ghost use Rattle.plan.specs.Lists.{written};
ghost use Rattle.plan.specs.File.{encode16, encode32, encode16s, decode16, decode32, decode16s};

// kept: 16 and 32 bits have a reader and a writer each, of a line or two, as the book has a definition for each; a trait over both would be longer.

// The number of 16 bits at a place. O(1).
pub fn read16(bytes: &[u8], at: usize) -> u16
    requires { at + 2 ≤ length bytes.now }
    ensures { result ≡ decode16 bytes.now at }
{
    u16::from_le_bytes([bytes[at], bytes[at + 1]])
}

// The number of 32 bits at a place. O(1).
pub fn read32(bytes: &[u8], at: usize) -> u32
    requires { at + 4 ≤ length bytes.now }
    ensures { result ≡ decode32 bytes.now at }
{
    u32::from(read16(bytes, at)) + 65536 * u32::from(read16(bytes, at + 2))
}

// Some numbers of 16 bits to the front of a buffer: the first stands at byte `at`, each `apart` bytes after the one before, and the last one's two
// bytes end within the bytes. O(count).
pub fn read16s(bytes: &[u8], at: usize, apart: usize, count: usize, numbers: &mut [u16])
    requires { (2 ≤ apart) × (at + apart * count ≤ length bytes.now + (apart - 2)) × (count ≤ length numbers.old) }
    ensures { numbers.new ≡ written (decode16s bytes.now at apart count) numbers.old }
{
    for (k, number) in numbers[..count].iter_mut().enumerate() {
        *number = read16(bytes, at + apart * k);
    }
}

// A number of 16 bits to the front of the bytes. O(1).
pub fn write16(x: u16, bytes: &mut [u8])
    requires { 2 ≤ length bytes.old }
    ensures { bytes.new ≡ written (encode16 x) bytes.old }
{
    let [low, high] = x.to_le_bytes();
    bytes[0] = low;
    bytes[1] = high;
}

// A number of 32 bits to the front of the bytes. O(1).
pub fn write32(x: u32, bytes: &mut [u8])
    requires { 4 ≤ length bytes.old }
    ensures { bytes.new ≡ written (encode32 x) bytes.old }
{
    write16((x % 65536) as u16, bytes);
    write16((x / 65536) as u16, &mut bytes[2..]);
}

// Some numbers of 16 bits to the front of the bytes, one after the other. O(length).
pub fn write16s(numbers: &[u16], bytes: &mut [u8])
    requires { 2 * length numbers.now ≤ length bytes.old }
    ensures { bytes.new ≡ written (encode16s numbers.now) bytes.old }
{
    for (k, x) in numbers.iter().enumerate() {
        let at = 2 * k;
        write16(*x, &mut bytes[at..]);
    }
}
