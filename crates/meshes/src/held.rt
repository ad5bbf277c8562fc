// What planning or reading leaves: the answer and the lent results. Each result is the front of an array that is longer than needed; the array
// holds a number of its own where nothing is written.
ghost use Rattle.std.specs.Prelude.{◌≡◌, ◌+◌, take};

use crate::buffers::{first, holds};
use naive::{GivenPlan, NaivePlan, NodeLists, Refused};
use plan::{Plan, Refusal};

// What each array holds where nothing is written.
const STALE_ORDER: u16 = 60001;

const STALE_POSITIONS: u16 = 60002;

const STALE_SIZES: u16 = 60003;

const STALE_PARENTS: u16 = 60004;

const STALE_COLUMN_STARTS: u32 = 60005;

const STALE_ROWS: u16 = 60006;

// The arrays whose fronts are lent as results.
// kept: arrays of fixed lengths, for memory is fixed.
#[derive(Clone, Copy, PartialEq, Eq)]
pub struct Buffers {
    pub order: [u16; 80],
    pub positions: [u16; 80],
    pub sizes: [u16; 80],
    pub parents: [u16; 80],
    pub column_starts: [u32; 80],
    pub rows: [u16; 2100],
}

impl Buffers {
    // Arrays in which nothing is written.
    pub fn new() -> Buffers {
        Buffers {
            order: [STALE_ORDER; 80],
            positions: [STALE_POSITIONS; 80],
            sizes: [STALE_SIZES; 80],
            parents: [STALE_PARENTS; 80],
            column_starts: [STALE_COLUMN_STARTS; 80],
            rows: [STALE_ROWS; 2100],
        }
    }

    // A plan whose lists these are, as `naive` is lent it.
    pub fn lists_of<'a>(&'a self, p: &Plan) -> GivenPlan<'a>
        ensures numbers { (result.unknowns ≡ p.now.unknowns) × (result.parts ≡ p.now.parts) × (result.slots ≡ p.now.slots) }
        ensures order { result.order.now ≡ take p.now.nodes self.now.order }
        ensures sizes { result.sizes.now ≡ take p.now.parts self.now.sizes }
        ensures parents { result.parents.now ≡ take p.now.parts self.now.parents }
        ensures nodes { result.columns.nodes ≡ p.now.nodes }
        ensures starts { result.columns.starts.now ≡ take (p.now.nodes + 1) self.now.column_starts }
        ensures rows { result.columns.entries.now ≡ take p.now.slots self.now.rows }
    {
        let nodes = p.nodes as usize;
        let parts = p.parts as usize;
        let slots = p.slots as usize;
        GivenPlan {
            unknowns: p.unknowns as usize,
            parts,
            slots,
            order: first(&self.order, nodes),
            sizes: first(&self.sizes, parts),
            parents: first(&self.parents, parts),
            columns: NodeLists {
                nodes,
                starts: first(&self.column_starts, nodes + 1),
                entries: first(&self.rows, slots),
            },
        }
    }

    // Whether nothing is written.
    fn are_stale(&self) -> bool {
        holds(&self.order, &[], 0, &STALE_ORDER)
            && holds(&self.positions, &[], 0, &STALE_POSITIONS)
            && holds(&self.sizes, &[], 0, &STALE_SIZES)
            && holds(&self.parents, &[], 0, &STALE_PARENTS)
            && holds(&self.column_starts, &[], 0, &STALE_COLUMN_STARTS)
            && holds(&self.rows, &[], 0, &STALE_ROWS)
    }

    // Whether the plan's lists are written, and nothing else.
    fn hold(&self, p: &NaivePlan) -> bool {
        let nodes = p.nodes as usize;
        let parts = p.parts as usize;
        let slots = p.slots as usize;
        holds(&self.order, &p.order, nodes, &STALE_ORDER)
            && holds(&self.positions, &p.positions, nodes, &STALE_POSITIONS)
            && holds(&self.sizes, &p.sizes, parts, &STALE_SIZES)
            && holds(&self.parents, &p.parents, parts, &STALE_PARENTS)
            && holds(
                &self.column_starts,
                &p.column_starts,
                nodes + 1,
                &STALE_COLUMN_STARTS,
            )
            && holds(&self.rows, &p.rows, slots, &STALE_ROWS)
    }
}

// An answer and the arrays that it came with.
#[derive(Clone, Copy, PartialEq, Eq)]
pub struct Held {
    pub answer: Result<Plan, Refusal>,
    pub buffers: Buffers,
}

// Whether a plan has the numbers that it should.
// kept: compared by hand, for the two are types apart: `naive` shares none with the library.
fn same_numbers(p: Plan, want: &NaivePlan) -> bool {
    p.nodes == want.nodes
        && p.parts == want.parts
        && p.slots == want.slots
        && p.unknowns == want.unknowns
        && p.multiplications == want.multiplications
}

impl Held {
    // Whether the answer is that of the naive code, and every entry what it should be: as it was where it is not used.
    pub fn agrees(&self, want: &Result<NaivePlan, Refused>) -> bool {
        match (self.answer, want) {
            (Ok(p), Ok(want)) => same_numbers(p, want) && self.buffers.hold(want),
            (Err(refusal), Err(want)) => { refusal.number() == want.0 && self.buffers.are_stale() }
            _ => false,
        }
    }
}
