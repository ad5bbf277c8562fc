// Numbers one less and one more, and numbers in lines.
ghost use Rattle.std.specs.Prelude.{◌≡◌, ◌+◌, ◌-◌, ◌%◌};

use std::io;

// One less than x, and 0 for 0.
pub fn less(x: usize) -> usize
    ensures { result ≡ x - 1 }
{
    x.saturating_sub(1)
}

// One more than x, where x is below 2^32.
pub fn more(x: usize) -> usize
    ensures { result ≡ x % 4294967296 + 1 }
{
    x % 4294967296 + 1
}

// A number that ends a line.
pub fn print_number(rt: &impl Print, x: usize) -> io::Result<()> {
    println!(rt; "{x}")
}
