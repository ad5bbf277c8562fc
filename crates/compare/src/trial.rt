// One mesh planned by both planners.
use mesh::LentMesh;
use meshes::{Buffers, Held, Lengths, front};
use naive::{NodeLists, Refused, Room};

// The naive refusal, if there is one, whether both planners answer the same and leave the same, and whether the planner's plan keeps the rule for uncut
// parts.
#[derive(Clone, Copy)]
pub(crate) struct Outcome {
    pub(crate) refusal: Option<Refused>,
    pub(crate) same: bool,
    pub(crate) cliques: bool,
}

// What the planner leaves.
fn plan(unknowns: usize, mesh: NodeLists, room: Room) -> Held {
    let mut buffers = Buffers::new();
    let lent = LentMesh {
        nodes: mesh.nodes,
        starts: mesh.starts,
        neighbours: mesh.entries,
    };
    let answer = planner::plan(
        unknowns,
        &lent,
        front(&mut buffers.order, room.order),
        front(&mut buffers.positions, room.positions),
        front(&mut buffers.sizes, room.sizes),
        front(&mut buffers.parents, room.parents),
        front(&mut buffers.column_starts, room.column_starts),
        front(&mut buffers.rows, room.rows),
    );
    Held { answer, buffers }
}

// Whether every uncut part of the plan that was handed out is a clique. A refusal hands out none.
fn keeps_cliques(mesh: NodeLists, h: &Held) -> bool {
    match h.answer {
        Ok(p) => naive::uncut_cliques(mesh, h.buffers.lists_of(&p)),
        Err(_) => true,
    }
}

// The lengths of the results that are lent for a mesh. Their rows go by the slots of its plan, if it has one.
fn room_for(unknowns: usize, mesh: NodeLists, l: Lengths) -> Room {
    let enough = Room {
        rows: 2016,
        ..l.room(0)
    };
    match naive::plan(unknowns, mesh, enough) {
        Ok(p) => l.room(p.slots as usize),
        Err(_) => l.room(0),
    }
}

// Lends both planners the same. Entries that are not used should stay as found, past a result's length too.
pub(crate) fn try_lent(unknowns: usize, mesh: NodeLists, l: Lengths) -> Outcome {
    let room = room_for(unknowns, mesh, l);
    let want = naive::plan(unknowns, mesh, room);
    let h = plan(unknowns, mesh, room);
    Outcome {
        refusal: want.err(),
        same: h.agrees(&want),
        cliques: keeps_cliques(mesh, &h),
    }
}
