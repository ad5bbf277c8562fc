// The replies of the C interface: plain structs, told from the answers of the entry points. Where a call is refused, every field but the refusal is
// 0.
ghost use Rattle.std.specs.Prelude.{◌≡◌};
ghost use Rattle.plan.specs.Answers.{plan_reply, write_reply, pair_reply, slot_reply, mesh_reply};
ghost use Rattle.ndplan.specs.Replies.{ndp_plan, ndp_written, ndp_slot, ndp_pair, ndp_mesh, family_number};

use plan::{MeshCounts, Pair, PairAnswer, Plan, Refusal, RefusalFamily};

// kept: the C interface: refusals are numbers, 0 for none, and so are kinds and families.

// What planning and reading answer: the refusal's number, 0 for none, the counts of the plan, and its unknowns for each node.
#[repr(C)]
#[derive(Clone, Copy, Default)]
pub struct NdpPlan {
    pub refusal: u32,
    pub nodes: u32,
    pub parts: u32,
    pub slots: u32,
    pub unknowns: u32,
    pub multiplications: u64,
}

// What writing answers: the refusal's number, 0 for none, and the file's length.
#[repr(C)]
#[derive(Clone, Copy, Default)]
pub struct NdpWritten {
    pub refusal: u32,
    pub length: u64,
}

// What the pair question answers: the refusal's number, 0 for none; the kind, 1 for a slot, 2 for the diagonal, 3 for no slot; and the slot, 0 where
// there is none.
#[repr(C)]
#[derive(Clone, Copy, Default)]
pub struct NdpSlot {
    pub refusal: u32,
    pub kind: u32,
    pub slot: u32,
}

// What the column question answers: its companion's number, and where the column's rows stand in the rows buffer.
#[repr(C)]
#[derive(Clone, Copy, Default)]
pub struct NdpRows {
    pub refusal: u32,
    pub start: u32,
    pub count: u32,
}

// What the question about a slot answers: the refusal's number, 0 for none, and the slot's row and column.
#[repr(C)]
#[derive(Clone, Copy, Default)]
pub struct NdpPair {
    pub refusal: u32,
    pub row: u32,
    pub column: u32,
}

// What reading a text and joining answer: the refusal's number, 0 for none, and the counts of the mesh.
#[repr(C)]
#[derive(Clone, Copy, Default)]
pub struct NdpMesh {
    pub refusal: u32,
    pub nodes: u32,
    pub entries: u32,
}

// The reply of planning and reading. O(1).
impl From<Result<Plan, Refusal>> for NdpPlan {
    ghost from_gives = { λ answer reply. reply ≡ ndp_plan (plan_reply answer) };

    fn from(answer: Result<Plan, Refusal>) -> NdpPlan {
        match answer {
            Ok(p) => NdpPlan {
                refusal: 0,
                nodes: p.nodes,
                parts: p.parts,
                slots: p.slots,
                unknowns: p.unknowns,
                multiplications: p.multiplications,
            },
            Err(refusal) => NdpPlan {
                refusal: refusal.number(),
                ..NdpPlan::default()
            },
        }
    }
}

// The reply of writing. O(1).
impl From<Result<usize, Refusal>> for NdpWritten {
    ghost from_gives = { λ answer reply. reply ≡ ndp_written (write_reply answer) };

    fn from(answer: Result<usize, Refusal>) -> NdpWritten {
        match answer {
            Ok(length) => NdpWritten {
                refusal: 0,
                length: length as u64,
            },
            Err(refusal) => NdpWritten {
                refusal: refusal.number(),
                ..NdpWritten::default()
            },
        }
    }
}

// The reply of the pair question. O(1).
impl From<Result<PairAnswer, Refusal>> for NdpSlot {
    ghost from_gives = { λ answer reply. reply ≡ ndp_slot (pair_reply answer) };

    fn from(answer: Result<PairAnswer, Refusal>) -> NdpSlot {
        let (refusal, kind, slot) = match answer {
            Ok(PairAnswer::Slot(s)) => (0, 1, s),
            Ok(PairAnswer::Diagonal) => (0, 2, 0),
            Ok(PairAnswer::NoSlot) => (0, 3, 0),
            Err(refusal) => (refusal.number(), 0, 0),
        };
        NdpSlot {
            refusal,
            kind,
            slot,
        }
    }
}

// The reply of the question about a slot. O(1).
impl From<Result<Pair, Refusal>> for NdpPair {
    ghost from_gives = { λ answer reply. reply ≡ ndp_pair (slot_reply answer) };

    fn from(answer: Result<Pair, Refusal>) -> NdpPair {
        match answer {
            Ok(p) => NdpPair {
                refusal: 0,
                row: p.row,
                column: p.column,
            },
            Err(refusal) => NdpPair {
                refusal: refusal.number(),
                ..NdpPair::default()
            },
        }
    }
}

// The reply of reading a text and of joining. O(1).
impl From<Result<MeshCounts, Refusal>> for NdpMesh {
    ghost from_gives = { λ answer reply. reply ≡ ndp_mesh (mesh_reply answer) };

    fn from(answer: Result<MeshCounts, Refusal>) -> NdpMesh {
        match answer {
            Ok(m) => NdpMesh {
                refusal: 0,
                nodes: m.nodes,
                entries: m.entries,
            },
            Err(refusal) => NdpMesh {
                refusal: refusal.number(),
                ..NdpMesh::default()
            },
        }
    }
}

// The number of a family. O(1).
pub(crate) fn family_number(family: RefusalFamily) -> u32
    ensures { result ≡ family_number family }
{
    match family {
        RefusalFamily::Mesh => 1,
        RefusalFamily::File => 2,
        RefusalFamily::Program => 3,
        RefusalFamily::Question => 4,
        RefusalFamily::None => 0,
    }
}
