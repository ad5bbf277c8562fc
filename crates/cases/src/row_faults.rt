// Files and lists whose rows break 17, 18 or both, in one column or in two: 17 is answered wherever it stands.
use crate::files::{changed, path_file, read_first, read_lent, with_rows, write_lent};
use crate::results::room;
use planfile::LentPlan;
use std::io;

// A file of 57 bytes and five more: four nodes, each a part. The parents of parts 0, 1 and 2 are 2, 3 and 3, so part 1, which is not below part 2,
// stands between it and part 0, which is. Columns 0, 1 and 2 have one row each, in the parent. The parents stand at 29, 33, 37 and 41, row counts at
// 43, rows at 51.
fn branches_file() -> [u8; 62] {
    *b"NDP\x02\0\x01\0\x04\0\0\0\x04\0\0\0\x03\0\0\0\x03\0\x01\0\0\0\x02\0\x01\0\x02\0\x01\0\x03\0\x01\0\x03\0\x01\0\xff\xff\x01\0\x01\0\x01\0\0\0\x02\0\x03\0\x03\0\0\0\0\0\0"
}

// The plan of that file.
const BRANCHES: LentPlan<'static> = LentPlan {
    unknowns: 1,
    nodes: 4,
    parts: 4,
    slots: 3,
    order: &[3, 1, 0, 2],
    sizes: &[1, 1, 1, 1],
    parents: &[2, 3, 3, 65535],
    column_starts: &[0, 1, 2, 3, 3],
    rows: &[2, 3, 3],
};

// The same parts with these lists, written.
fn write_branches<'a>(
    rt: &impl Print,
    title: u8,
    parents: &'a [u16],
    column_starts: &'a [u32],
    rows: &'a [u16],
) -> io::Result<()> {
    let plan = LentPlan {
        parents,
        column_starts,
        rows,
        ..BRANCHES
    };
    write_lent(rt, title, plan, 57)
}

// A plan of one part of two nodes with a row that is no position.
const BEYOND: LentPlan<'static> = LentPlan {
    unknowns: 1,
    nodes: 2,
    parts: 1,
    slots: 1,
    order: &[0, 1],
    sizes: &[2],
    parents: &[65535],
    column_starts: &[0, 1, 1],
    rows: &[7],
};

// One part of two nodes, and row 7 in column 0.
fn beyond(rt: &impl Print) -> io::Result<()> {
    read_lent(
        rt,
        131,
        b"NDP\x02\0\x01\0\x02\0\0\0\x01\0\0\0\x01\0\0\0\0\0\x01\0\x02\0\xff\xff\x01\0\0\0\x07\0",
        room(3, 2),
    )?;
    write_lent(rt, 131, BEYOND, 33)
}

// The file above as it is; then a fault of 18 alone, in the first column, the middle one and the last one that has a row.
fn outside(rt: &impl Print) -> io::Result<()> {
    let f = branches_file();
    let starts = [0, 1, 2, 3, 3];
    read_first(rt, 132, f, 57)?;
    write_branches(rt, 132, &[2, 3, 3, 65535], &starts, &[2, 3, 3])?;
    read_first(rt, 133, changed(f, 51, 1), 57)?;
    write_branches(rt, 133, &[2, 3, 3, 65535], &starts, &[1, 3, 3])?;
    read_first(rt, 134, changed(f, 53, 2), 57)?;
    write_branches(rt, 134, &[2, 3, 3, 65535], &starts, &[2, 2, 3])?;
    read_first(rt, 135, changed(f, 37, 65535), 57)?;
    write_branches(rt, 135, &[2, 3, 65535, 65535], &starts, &[2, 3, 3])
}

// 18 in column 0, and 17 behind it: a row of n in column 2, and row 3 in column 3.
fn outside_first(rt: &impl Print) -> io::Result<()> {
    let f = changed(branches_file(), 51, 1);
    let last = changed(changed(f, 47, 0), 49, 1);
    let parents = [2, 3, 3, 65535];
    read_first(rt, 136, changed(f, 55, 4), 57)?;
    write_branches(rt, 136, &parents, &[0, 1, 2, 3, 3], &[1, 3, 4])?;
    read_first(rt, 137, last, 57)?;
    write_branches(rt, 137, &parents, &[0, 1, 2, 2, 3], &[1, 3, 3])
}

// 17 in column 0, by row 0 and by a row of n, and 18 in column 2.
fn outside_last(rt: &impl Print) -> io::Result<()> {
    let f = changed(branches_file(), 37, 65535);
    let parents = [2, 3, 65535, 65535];
    read_first(rt, 138, changed(f, 51, 0), 57)?;
    write_branches(rt, 138, &parents, &[0, 1, 2, 3, 3], &[0, 3, 3])?;
    read_first(rt, 139, changed(f, 51, 4), 57)?;
    write_branches(rt, 139, &parents, &[0, 1, 2, 3, 3], &[4, 3, 3])
}

// Rows 2 and 1 in column 0: they do not ascend, and row 1 lies outside. Then the same rows ascending.
fn outside_unsorted(rt: &impl Print) -> io::Result<()> {
    let f = changed(changed(branches_file(), 43, 2), 47, 0);
    let parents = [2, 3, 3, 65535];
    read_first(rt, 140, changed(f, 53, 1), 57)?;
    write_branches(rt, 140, &parents, &[0, 2, 3, 3, 3], &[2, 1, 3])?;
    read_first(rt, 141, changed(changed(f, 51, 1), 53, 2), 57)?;
    write_branches(rt, 141, &parents, &[0, 2, 3, 3, 3], &[1, 2, 3])
}

// Mesh 4: 18 in column 0 and 17 in column 3, 17 in column 0 and 18 in column 1, 18 in both, and row 3 twice in column 2.
fn of_path(rt: &impl Print) -> io::Result<()> {
    let f = path_file();
    read_first(rt, 142, changed(changed(f, 51, 2), 59, 5), 61)?;
    write_lent(rt, 142, with_rows(&[2, 4, 3, 4, 5]), 61)?;
    read_first(rt, 143, changed(changed(f, 51, 5), 53, 3), 61)?;
    write_lent(rt, 143, with_rows(&[5, 3, 3, 4, 4]), 61)?;
    read_first(rt, 144, changed(changed(f, 51, 2), 53, 3), 61)?;
    write_lent(rt, 144, with_rows(&[2, 3, 3, 4, 4]), 61)?;
    read_first(rt, 145, changed(f, 57, 3), 61)?;
    write_lent(rt, 145, with_rows(&[1, 4, 3, 3, 4]), 61)
}

pub(crate) fn all(rt: &impl Print) -> io::Result<()> {
    beyond(rt)?;
    outside(rt)?;
    outside_first(rt)?;
    outside_last(rt)?;
    outside_unsorted(rt)?;
    of_path(rt)
}
