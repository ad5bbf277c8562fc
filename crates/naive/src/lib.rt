// A second planner, a second reader and writer of plan files, a second reader of Matrix Market texts, a second joining of meshes, a second factorization
// and solution, answers to questions, and the rule for uncut parts, written from documents 01 and 02 and the readings in docs/DECISIONS.md, without the
// book or the proved code: dense, literal and small, for meshes of at most 64 nodes, 4,096 where they are joined, or texts of at most 2,200 pairs.
// Test programs compare the proved code with it. Proved safe; what it answers is tested, and not proved.
// Cost: every function is polynomial in 64, in 2,200, where meshes are joined in 4,096, and in the lengths of what it is lent.
#![tactic(auto)]

mod check;
mod cliques;
mod contents;
mod elimination;
mod factoring;
mod file;
mod given;
mod head;
mod held;
mod joining;
mod lists;
mod parts;
mod questions;
mod refused;
mod sets;
mod solving;
mod text;
mod words;

use crate::elimination::eliminate;
use crate::refused::refused_if;
pub use cliques::uncut_cliques;
pub use factoring::{NaiveFactor, NaiveReport, factor};
pub use file::{LONGEST, NaiveFile, encode, read, write};
pub use given::{GivenPlan, GivenValues, NodeLists, NodePairs, Room};
pub use head::most_slots;
pub use held::held_at;
pub use joining::join;
pub use questions::{NaiveColumn, NaivePair, NaiveSlot, column, pair_of_slot, slot_of_pair};
pub use refused::Refused;
pub use solving::solve;
pub use text::{NaiveMesh, read_text};

// The refusal of reading, writing, factoring or solving where a plan has more nodes, or a text more pairs, than this code takes.
pub const TOO_LARGE: u32 = 65535;

// What planning and reading hand out.
// kept: arrays with their lengths beside, for memory is fixed.
#[derive(Clone, Copy)]
pub struct NaivePlan {
    pub nodes: u32,
    pub parts: u32,
    pub slots: u32,
    pub unknowns: u32,
    pub multiplications: u64,
    pub order: [u16; 64],
    pub positions: [u16; 64],
    pub sizes: [u16; 64],
    pub parents: [u16; 64],
    pub column_starts: [u32; 65],
    pub rows: [u16; 2016],
}

impl NaivePlan {
    // The plan as it is lent.
    pub(crate) fn given<'a>(&'a self) -> GivenPlan<'a> {
        GivenPlan {
            unknowns: self.unknowns as usize,
            parts: self.parts as usize,
            slots: self.slots as usize,
            order: &self.order,
            sizes: &self.sizes,
            parents: &self.parents,
            columns: NodeLists {
                nodes: self.nodes as usize,
                starts: &self.column_starts,
                entries: &self.rows,
            },
        }
    }
}

fn planned(unknowns: usize, mesh: NodeLists) -> NaivePlan {
    let n = mesh.nodes;
    let m = check::matrix(mesh);
    let d = parts::dissect(&m, n);
    let order = d.order;
    let positions = d.positions;
    let sizes = d.sizes;
    let parents = d.parents;
    let e = eliminate(m, &order, n);
    let column_starts = e.column_starts;
    let rows = e.rows;
    NaivePlan {
        nodes: (n % 65536) as u32,
        parts: (d.parts % 65536) as u32,
        slots: (e.slots % 65536) as u32,
        unknowns: (unknowns % 65536) as u32,
        multiplications: e.multiplications,
        order,
        positions,
        sizes,
        parents,
        column_starts,
        rows,
    }
}

// The plan of a lent mesh with so many unknowns for each node. Refusals 28, 1 to 8 and 26 are right for every n; a plan, and refusal 9, for n of at
// most 64.
pub fn plan(unknowns: usize, mesh: NodeLists, room: Room) -> Result<NaivePlan, Refused> {
    refused_if(head::unknowns_fail(unknowns), 28)?;
    check::check_mesh(mesh)?;
    room.check_lists(mesh.nodes)?;
    let p = planned(unknowns, mesh);
    room.check_rows(p.slots as usize)?;
    Ok(p)
}
