// Document 01's worked files, and files and lists that tell misreadings of the reader or the writer apart. Where nothing else is said the plan is
// that of mesh 4.
use crate::results::{Results, room};
use crate::show::{print_answer, print_entries, print_results, print_title, print_written};
use meshes::{first, front};
use naive::Room;
use planfile::LentPlan;
use std::io;

// The columns of mesh 4's plan.
pub(crate) const STARTS: &[u32] = &[0, 1, 2, 4, 5, 5];

pub(crate) const ROWS: &[u16] = &[1, 4, 3, 4, 4];

// The plan of mesh 4.
pub(crate) const PATH: LentPlan<'static> = LentPlan {
    unknowns: 1,
    nodes: 5,
    parts: 3,
    slots: 5,
    order: &[0, 1, 3, 4, 2],
    sizes: &[2, 2, 1],
    parents: &[2, 2, 65535],
    column_starts: STARTS,
    rows: ROWS,
};

// Mesh 4's file of 61 bytes and a byte more: the unknowns stand at 5, n at 7, the order at 19, sizes and parents at 29, row counts at 41, rows at 51.
pub(crate) fn path_file() -> [u8; 62] {
    *b"NDP\x02\0\x01\0\x05\0\0\0\x03\0\0\0\x05\0\0\0\0\0\x01\0\x03\0\x04\0\x02\0\x02\0\x02\0\x02\0\x02\0\x01\0\xff\xff\x01\0\x01\0\x02\0\x01\0\0\0\x01\0\x04\0\x03\0\x04\0\x04\0\0"
}

// Its file of version 1, 59 bytes, and three bytes more: n stands at 5, the order at 17, sizes and parents at 27, row counts at 39, rows at 49.
pub(crate) fn path_file_1() -> [u8; 62] {
    *b"NDP\x01\0\x05\0\0\0\x03\0\0\0\x05\0\0\0\0\0\x01\0\x03\0\x04\0\x02\0\x02\0\x02\0\x02\0\x02\0\x01\0\xff\xff\x01\0\x01\0\x02\0\x01\0\0\0\x01\0\x04\0\x03\0\x04\0\x04\0\0\0\0"
}

// The file with another number of two bytes there.
pub(crate) fn changed(file: [u8; 62], at: u8, x: u16) -> [u8; 62] {
    let mut f = file;
    let first = at as usize;
    if first < 61 {
        f[first] = (x % 256) as u8;
        f[first + 1] = (x / 256 % 256) as u8;
    }
    f
}

// A file read into results of these lengths.
pub(crate) fn read_lent(rt: &impl Print, title: u8, bytes: &[u8], room: Room) -> io::Result<()> {
    print_title(rt, title)?;
    let mut results = Results::new();
    let answer = planfile::read(
        bytes,
        front(&mut results.order, room.order),
        front(&mut results.positions, room.positions),
        front(&mut results.sizes, room.sizes),
        front(&mut results.parents, room.parents),
        front(&mut results.column_starts, room.column_starts),
        front(&mut results.rows, room.rows),
    );
    print_answer(rt, answer)?;
    print_results(rt, &results, room)
}

// The first bytes of a file, read into results that are long enough for mesh 4.
pub(crate) fn read_first(
    rt: &impl Print,
    title: u8,
    file: [u8; 62],
    length: usize,
) -> io::Result<()> {
    read_lent(rt, title, first(&file, length), room(6, 6))
}

// A plan written into so many bytes, which hold 77.
pub(crate) fn write_lent(
    rt: &impl Print,
    title: u8,
    plan: LentPlan,
    length: usize,
) -> io::Result<()> {
    print_title(rt, title)?;
    let mut bytes = [77u8; 64];
    let answer = planfile::write(&plan, front(&mut bytes, length));
    print_written(rt, answer)?;
    print_entries(rt, first(&bytes, length))
}

// "Meshes worked through", 4 and 10.
fn worked(rt: &impl Print) -> io::Result<()> {
    write_lent(rt, 4, PATH, 61)?;
    read_first(rt, 4, path_file(), 61)?;
    read_first(rt, 4, path_file_1(), 59)?;
    read_lent(rt, 10, b"NDP\x02\0\0\0\0\0\0\0\0\0\0\0\0\0", room(1, 1))?;
    read_lent(rt, 10, b"NDP\x02\0\0\0\0\0\0\0\0\0\0\0\0", room(1, 1))
}

// 11 and 12, in both versions.
fn worked_rows(rt: &impl Print) -> io::Result<()> {
    read_lent(
        rt,
        11,
        b"NDP\x02\0\x01\0\x03\0\0\0\x01\0\0\0\x02\0\0\0\0\0\x01\0\x02\0\x03\0\xff\xff\x02\0\0\0\0\0\x01\0\x02\0",
        room(4, 3),
    )?;
    read_lent(
        rt,
        11,
        b"NDP\x01\0\x03\0\0\0\x01\0\0\0\x02\0\0\0\0\0\x01\0\x02\0\x03\0\xff\xff\x02\0\0\0\0\0\x01\0\x02\0",
        room(4, 3),
    )?;
    read_lent(
        rt,
        12,
        b"NDP\x02\0\x01\0\x02\0\0\0\x02\0\0\0\x01\0\0\0\0\0\x01\0\x01\0\xff\xff\x01\0\xff\xff\x01\0\0\0\x01\0",
        room(3, 2),
    )?;
    read_lent(
        rt,
        12,
        b"NDP\x01\0\x02\0\0\0\x02\0\0\0\x01\0\0\0\0\0\x01\0\x01\0\xff\xff\x01\0\xff\xff\x01\0\0\0\x01\0",
        room(3, 2),
    )
}

// Buffers that are too short.
fn short(rt: &impl Print) -> io::Result<()> {
    let f = path_file();
    read_lent(
        rt,
        51,
        first(&f, 61),
        Room {
            positions: 4,
            ..room(5, 5)
        },
    )?;
    read_lent(
        rt,
        52,
        first(&f, 61),
        Room {
            sizes: 3,
            ..room(5, 5)
        },
    )?;
    read_lent(
        rt,
        53,
        first(&f, 61),
        Room {
            sizes: 4,
            ..room(5, 4)
        },
    )?;
    read_lent(rt, 54, first(&f, 61), room(5, 4))
}

// A wrong magic (document 01: mark), version, number of nodes or length.
fn headed(rt: &impl Print) -> io::Result<()> {
    let f = path_file();
    read_first(rt, 55, changed(f, 1, 0), 16)?;
    read_first(rt, 56, changed(changed(f, 1, 0), 3, 3), 61)?;
    read_first(rt, 57, changed(changed(f, 3, 3), 7, 0), 61)?;
    read_first(rt, 58, changed(f, 3, 3), 61)?;
    read_first(rt, 59, changed(f, 9, 1), 61)?;
    read_first(rt, 60, changed(f, 7, 0), 61)?;
    read_first(rt, 61, f, 60)?;
    read_first(rt, 61, f, 62)
}

// Sizes whose sum, cut to two bytes, is n; such counts; and two faults at once.
fn faulty(rt: &impl Print) -> io::Result<()> {
    let f = path_file();
    read_first(rt, 62, changed(changed(f, 29, 65535), 33, 5), 61)?;
    let counts = changed(changed(f, 45, 0), 47, 0);
    read_first(rt, 63, changed(changed(counts, 41, 65535), 43, 6), 61)?;
    read_first(rt, 64, changed(changed(f, 41, 2), 51, 3), 61)?;
    read_first(rt, 65, changed(f, 51, 7), 61)?;
    let moved = changed(changed(f, 41, 2), 43, 0);
    read_first(rt, 66, changed(moved, 53, 3), 61)?;
    read_first(rt, 67, moved, 61)?;
    read_first(rt, 68, changed(changed(f, 21, 0), 29, 0), 61)?;
    read_first(rt, 69, changed(f, 35, 1), 61)
}

// The plan of mesh 4 with another list.
pub(crate) fn with_order<'a>(order: &'a [u16]) -> LentPlan<'a> {
    LentPlan { order, ..PATH }
}

fn with_starts<'a>(column_starts: &'a [u32]) -> LentPlan<'a> {
    LentPlan {
        column_starts,
        ..PATH
    }
}

pub(crate) fn with_rows<'a>(rows: &'a [u16]) -> LentPlan<'a> {
    LentPlan { rows, ..PATH }
}

// The plan of mesh 4 with lists that are longer than needed.
const LONGER: LentPlan<'static> = LentPlan {
    order: &[0, 1, 3, 4, 2, 0],
    column_starts: &[0, 1, 2, 4, 5, 5, 9],
    rows: &[1, 4, 3, 4, 4, 0],
    ..PATH
};

// The plan of a single node.
const SINGLE: LentPlan<'static> = LentPlan {
    unknowns: 1,
    nodes: 1,
    parts: 1,
    slots: 0,
    order: &[0],
    sizes: &[1],
    parents: &[65535],
    column_starts: &[0, 0],
    rows: &[],
};

// Lists that are too short or longer than needed, wrong column starts, and little room.
fn unwritten(rt: &impl Print) -> io::Result<()> {
    write_lent(rt, 71, SINGLE, 28)?;
    write_lent(rt, 72, with_starts(&[0, 1, 2, 4, 5]), 61)?;
    write_lent(rt, 73, with_rows(&[1, 4, 3, 4]), 61)?;
    write_lent(rt, 74, LONGER, 63)?;
    write_lent(rt, 75, with_starts(&[1, 1, 2, 4, 5, 5]), 61)?;
    write_lent(rt, 76, with_starts(&[0, 1, 2, 4, 5, 6]), 61)?;
    write_lent(rt, 77, with_starts(&[0, 2, 1, 4, 5, 5]), 61)?;
    write_lent(rt, 78, PATH, 60)?;
    write_lent(rt, 79, with_order(&[0, 1, 3, 4, 4]), 0)
}

pub(crate) fn all(rt: &impl Print) -> io::Result<()> {
    worked(rt)?;
    worked_rows(rt)?;
    short(rt)?;
    headed(rt)?;
    faulty(rt)?;
    unwritten(rt)
}
