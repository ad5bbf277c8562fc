// What planning a mesh and reading a file leave in arrays that are longer than needed.
use crate::file::File;
use mesh::LentMesh;
use meshes::{Buffers, Case, Held, front};
use naive::Room;

// The plan of a mesh with so many unknowns for each node.
pub(crate) fn planned(unknowns: usize, c: &Case) -> Held {
    let mut buffers = Buffers::new();
    let m = c.mesh();
    let lent = LentMesh {
        nodes: m.nodes,
        starts: m.starts,
        neighbours: m.entries,
    };
    let answer = planner::plan(
        unknowns,
        &lent,
        &mut buffers.order,
        &mut buffers.positions,
        &mut buffers.sizes,
        &mut buffers.parents,
        &mut buffers.column_starts,
        &mut buffers.rows,
    );
    Held { answer, buffers }
}

// Results that are longer than needed.
pub(crate) const ENOUGH: Room = Room {
    order: 80,
    positions: 80,
    sizes: 80,
    parents: 80,
    column_starts: 80,
    rows: 2100,
};

// What reading a file leaves where results of these lengths are lent.
pub(crate) fn read(f: &File, room: Room) -> Held {
    let mut buffers = Buffers::new();
    let answer = planfile::read(
        f.as_slice(),
        front(&mut buffers.order, room.order),
        front(&mut buffers.positions, room.positions),
        front(&mut buffers.sizes, room.sizes),
        front(&mut buffers.parents, room.parents),
        front(&mut buffers.column_starts, room.column_starts),
        front(&mut buffers.rows, room.rows),
    );
    Held { answer, buffers }
}
