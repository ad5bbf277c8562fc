// Numbers that look random, each made from a seed and two numbers that say what it is for.

// One step of a linear congruential generator; a number below 2^31.
fn step(x: u64) -> u64 {
    (x % 2147483648 * 1103515245 + 12345) % 2147483648
}

// The high bits over the low ones.
fn fold(x: u64) -> u64 {
    x ^ (x / 32768)
}

// A number below `bound`, or 0 where `bound` is 0.
pub fn draw(seed: u64, a: usize, b: usize, bound: usize) -> usize {
    if bound == 0 {
        return 0;
    }
    let x = step(seed % 2147483648 + (a % 65536) as u64);
    let y = step(fold(x) % 2147483648 + (b % 65536) as u64);
    let z = step(fold(y)) / 1024;
    z as usize % bound
}
