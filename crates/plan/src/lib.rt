// The public kinds: a plan, what the entry points answer, the report of factoring, the refusals, and the family of a refusal's number.
#![tactic(auto)]

mod refusal;

ghost use Rattle.std.specs.Prelude.{◌≡◌, cond, ◌+◌, ◌<◌, ◌^◌};
ghost use Rattle.std.specs.Float.Ieee.{lt};
ghost use Rattle.plan.specs.Mesh.{max_nodes, max_entries, max_neighbours, max_unknowns, no_parent};
ghost use Rattle.plan.specs.Planning.{bad_unknowns};
ghost use Rattle.plan.specs.Refusals.{family_of};
ghost use Rattle.plan.specs.Factoring.{open_report, zero_report, after_column};

pub use refusal::Refusal;

// A plan by its counts. Its lists (order, positions, sizes, parents, column starts, rows) stand in the lent buffers.
#[derive(Clone, Copy, Debug, PartialEq, Eq)]
pub struct Plan {
    pub nodes: u32,
    pub parts: u32,
    pub slots: u32,
    // for each node
    pub unknowns: u32,
    pub multiplications: u64,
}

impl Plan {
    // the most nodes that a mesh may have
    pub const NODES: usize = 4096;
    // the most neighbour entries that it may have
    pub const ENTRIES: usize = 65536;
    // the most neighbours that a node may have
    pub const NEIGHBOURS: usize = 26;
    // the most unknowns for each node
    pub const UNKNOWNS: usize = 6;
    // the parent (document 01: father) of a part that has none
    // kept: a number and no Option, since the lent parents and a file hold it
    pub const NO_PARENT: u16 = 65535;

    // A plan of these counts. O(1).
    pub fn new(nodes: u32, parts: u32, slots: u32, unknowns: u32, multiplications: u64) -> Self
        ensures { result ≡ record { nodes = nodes; parts = parts; slots = slots; unknowns = unknowns; multiplications = multiplications } }
    {
        Self {
            nodes,
            parts,
            slots,
            unknowns,
            multiplications,
        }
    }

    // Check 28: the number of unknowns for each node is outside 1 to 6. O(1).
    pub fn bad_unknowns(unknowns: usize) -> bool
        ensures { result ≡ bad_unknowns unknowns }
    {
        unknowns == 0 || unknowns > Self::UNKNOWNS
    }

    // kept: document 01 has the limits as constants on Plan, so that five functions differ in a constant alone.
    // The limits are those of the book: a function for each says so, since the book cannot name a constant of the code. O(1).
    fn max_nodes() -> usize
        ensures { result ≡ max_nodes }
    {
        Self::NODES
    }

    fn max_entries() -> usize
        ensures { result ≡ max_entries }
    {
        Self::ENTRIES
    }

    fn max_neighbours() -> usize
        ensures { result ≡ max_neighbours }
    {
        Self::NEIGHBOURS
    }

    fn max_unknowns() -> usize
        ensures { result ≡ max_unknowns }
    {
        Self::UNKNOWNS
    }

    fn no_parent() -> u16
        ensures { result ≡ no_parent }
    {
        Self::NO_PARENT
    }
}

// The answer to the question about a pair of positions, where it is not refused.
#[derive(Clone, Copy, Debug, PartialEq, Eq)]
pub enum PairAnswer {
    Slot(u32),
    Diagonal,
    NoSlot,
}

// A pair of positions that has a slot: the row is the later position, the column the earlier.
#[derive(Clone, Copy, Debug, PartialEq, Eq)]
pub struct Pair {
    pub row: u32,
    pub column: u32,
}

// A mesh by its counts. Its starts and neighbours stand in the lent buffers.
#[derive(Clone, Copy, Debug, PartialEq, Eq)]
pub struct MeshCounts {
    pub nodes: u32,
    pub entries: u32,
}

// A span of the rows buffer (document 01: stretch), the answer to the question about a column: where it starts, and how many rows it has.
#[derive(Clone, Copy, Debug, PartialEq, Eq)]
pub struct Span {
    pub start: usize,
    pub count: usize,
}

// What factoring reports: the smallest and the largest pivot, and the multiplications and divisions done.
#[derive(Clone, Copy)]
pub struct Report {
    pub smallest: f64,
    pub largest: f64,
    pub operations: u64,
}

impl Report {
    // Before the first column: any pivot is smaller than the one and larger than the other. O(1).
    pub fn open() -> Self
        ensures { result ≡ open_report }
    {
        Self {
            smallest: 1.0 / 0.0,
            largest: 0.0,
            operations: 0,
        }
    }

    // Of a refusal. O(1).
    pub fn zero() -> Self
        ensures { result ≡ zero_report }
    {
        Self {
            smallest: 0.0,
            largest: 0.0,
            operations: 0,
        }
    }

    // After a column with pivot d and so many multiplications and divisions. O(1).
    pub fn after(self, d: f64, operations: u64) -> Self
        requires { self.operations + operations < 2 ^ 64 }
        ensures { result ≡ after_column self d operations }
    {
        Self {
            smallest: lesser(d, self.smallest),
            largest: greater(d, self.largest),
            operations: self.operations + operations,
        }
    }
}

// a if it is less than b, else b
fn lesser(a: f64, b: f64) -> f64
    ensures { result ≡ cond (lt a b) a b }
{
    if a < b { a } else { b }
}

// a if it is greater than b, else b
fn greater(a: f64, b: f64) -> f64
    ensures { result ≡ cond (lt b a) a b }
{
    if b < a { a } else { b }
}

// The answer to the question what the factor holds at a pair of positions: the number on the diagonal or in the slot, that there is no slot, or a
// refusal.
// kept: document 01 names this form, with the refusal as one of three cases, and `SolveCases` tells what a refusal by any number says.
#[derive(Clone, Copy)]
pub enum HeldAnswer {
    Value(f64),
    NoSlot,
    Refused(u32),
}

// The family of a refusal's number.
#[derive(Clone, Copy, Debug, PartialEq, Eq)]
pub enum RefusalFamily {
    Mesh,
    File,
    Program,
    Question,
    None,
}

// "A number's family is told by its range" O(1).
pub fn family(number: u32) -> RefusalFamily
    ensures { result ≡ family_of number }
{
    match number {
        1..=9 => RefusalFamily::Mesh,
        10..=19 => RefusalFamily::File,
        20 => RefusalFamily::Program,
        21..=22 => RefusalFamily::Question,
        _ => RefusalFamily::None,
    }
}
