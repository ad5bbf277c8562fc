// Numbers of unknowns for each node, allowed and refused.
ghost use Rattle.std.specs.Prelude.{◌≡◌, ◌+◌, ◌%◌};

// The allowed numbers, in turn.
pub fn allowed_unknowns(turn: u64) -> usize
    ensures { result ≡ turn % 6 + 1 }
{
    turn as usize % 6 + 1
}

// How many refused numbers are tried.
pub const REFUSED_UNKNOWNS: u64 = 10;

// The refused numbers: those next to the allowed ones, some that have an allowed one in a part of their bits, and the greatest of 16, 32 and 64 bits.
const REFUSED: [usize; 10] = [
    0,
    7,
    257,
    1536,
    65535,
    65537,
    393216,
    4294967295,
    4294967298,
    18446744073709551615,
];

// Numbers that 28 refuses, in turn.
pub fn refused_unknowns(turn: u64) -> usize {
    REFUSED[(turn % REFUSED_UNKNOWNS) as usize]
}
