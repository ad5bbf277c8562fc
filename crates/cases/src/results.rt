// The buffers that planning and reading are lent.
use naive::Room;

// Buffers whose fronts are lent. Each entry holds 60,000 before.
// kept: arrays of fixed lengths, for memory is fixed; not the `Buffers` of `meshes`, for the output shows 60,000 in all of them.
#[derive(Clone, Copy)]
pub(crate) struct Results {
    pub(crate) order: [u16; 32],
    pub(crate) positions: [u16; 32],
    pub(crate) sizes: [u16; 32],
    pub(crate) parents: [u16; 32],
    pub(crate) column_starts: [u32; 32],
    pub(crate) rows: [u16; 32],
}

impl Results {
    pub(crate) fn new() -> Results {
        Results {
            order: [60000; 32],
            positions: [60000; 32],
            sizes: [60000; 32],
            parents: [60000; 32],
            column_starts: [60000; 32],
            rows: [60000; 32],
        }
    }
}

// Fronts of this length, one more for the column starts, and so many rows.
pub(crate) fn room(length: u8, rows: usize) -> Room {
    let length = length as usize;
    Room {
        order: length,
        positions: length,
        sizes: length,
        parents: length,
        column_starts: length + 1,
        rows,
    }
}
