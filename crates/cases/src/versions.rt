// Versions of the file and numbers of unknowns for each node that tell misreadings apart. Where nothing else is said the plan is that of mesh 4.
use crate::files::{
    PATH, changed, path_file, path_file_1, read_first, read_lent, with_order, write_lent,
};
use crate::results::room;
use crate::{lent, plan_unknowns};
use meshes::first;
use naive::Room;
use planfile::LentPlan;
use std::io;

// Mesh 4 with so many unknowns for each node, planned into buffers of this length.
fn plan_path(rt: &impl Print, title: u8, unknowns: usize, length: u8) -> io::Result<()> {
    let starts = [0, 1, 3, 5, 7, 8];
    let neighbours = [1, 0, 2, 1, 3, 2, 4, 3];
    plan_unknowns(
        rt,
        title,
        unknowns,
        lent(5, &starts, &neighbours),
        length,
        6,
    )
}

// A version behind the letters, and zeros.
fn bare_file(version: u16) -> [u8; 62] {
    let mut f = [0u8; 62];
    f[0] = 78;
    f[1] = 68;
    f[2] = 80;
    changed(f, 3, version)
}

// The plan does not depend on the unknowns; 28 comes before 1 and 8, and is not fooled by low bits that would be right.
fn planned(rt: &impl Print) -> io::Result<()> {
    plan_path(rt, 151, 2, 6)?;
    plan_path(rt, 151, 6, 6)?;
    plan_path(rt, 152, 0, 6)?;
    plan_path(rt, 152, 7, 6)?;
    plan_path(rt, 152, 65537, 6)?;
    plan_path(rt, 152, 4294967297, 6)?;
    plan_path(rt, 153, 0, 4)?;
    plan_unknowns(rt, 153, 0, lent(0, &[0], &[]), 2, 1)?;
    plan_unknowns(rt, 153, 7, lent(4097, &[], &[]), 2, 1)?;
    plan_unknowns(rt, 154, 6, lent(0, &[0], &[]), 2, 1)
}

// A plan with so many unknowns for each node, written.
fn write_unknowns(
    rt: &impl Print,
    title: u8,
    unknowns: usize,
    plan: LentPlan,
    length: usize,
) -> io::Result<()> {
    write_lent(rt, title, LentPlan { unknowns, ..plan }, length)
}

// A plan of nothing.
const EMPTY: LentPlan<'static> = LentPlan {
    unknowns: 0,
    nodes: 0,
    parts: 0,
    slots: 0,
    order: &[],
    sizes: &[],
    parents: &[],
    column_starts: &[],
    rows: &[],
};

// 28 comes before 13, for wrong numbers and for short lists, and before 15 and 8.
fn written(rt: &impl Print) -> io::Result<()> {
    write_unknowns(rt, 155, 6, PATH, 63)?;
    write_unknowns(rt, 156, 0, PATH, 61)?;
    write_unknowns(rt, 156, 7, PATH, 61)?;
    write_unknowns(rt, 156, 65537, PATH, 61)?;
    write_unknowns(rt, 156, 4294967297, PATH, 61)?;
    write_unknowns(rt, 157, 0, EMPTY, 19)?;
    write_unknowns(rt, 157, 7, with_order(&[0, 1, 3, 4]), 61)?;
    write_unknowns(rt, 157, 7, with_order(&[0, 1, 3, 4, 4]), 60)?;
    write_unknowns(rt, 158, 6, EMPTY, 19)?;
    write_unknowns(rt, 158, 6, with_order(&[0, 1, 3, 4]), 61)
}

// Files of version 2: numbers of unknowns; 28 comes before 13, 14 and 15.
fn read(rt: &impl Print) -> io::Result<()> {
    let f = path_file();
    let none = changed(f, 5, 0);
    read_first(rt, 161, changed(f, 5, 6), 61)?;
    read_first(rt, 162, none, 61)?;
    read_first(rt, 162, changed(f, 5, 7), 61)?;
    read_first(rt, 162, changed(f, 5, 256), 61)?;
    read_first(rt, 162, changed(f, 5, 65535), 61)?;
    read_first(rt, 163, changed(none, 7, 0), 61)?;
    read_first(rt, 163, none, 60)?;
    read_first(rt, 163, changed(none, 21, 0), 61)
}

// Files of 16 to 19 bytes: 10 comes for the second time right after the version, before 28, and for version 2 only.
fn short(rt: &impl Print) -> io::Result<()> {
    let f = path_file();
    let bare = bare_file(2);
    read_first(rt, 164, f, 16)?;
    read_first(rt, 164, f, 17)?;
    read_first(rt, 164, f, 18)?;
    read_first(rt, 164, f, 19)?;
    read_first(rt, 165, bare, 18)?;
    read_first(rt, 165, bare, 19)?;
    read_first(rt, 165, changed(bare, 5, 1), 19)?;
    read_first(rt, 166, changed(f, 1, 0), 17)?;
    read_first(rt, 166, changed(f, 3, 3), 17)?;
    read_first(rt, 167, bare_file(1), 17)?;
    read_first(rt, 167, path_file_1(), 17)
}

// Versions that are neither 1 nor 2, some with one of them in a byte; and the file of a version told to be of the other.
fn other_versions(rt: &impl Print) -> io::Result<()> {
    let f = path_file();
    let older = path_file_1();
    read_first(rt, 171, changed(f, 3, 0), 61)?;
    read_first(rt, 171, changed(f, 3, 3), 61)?;
    read_first(rt, 171, changed(f, 3, 256), 61)?;
    read_first(rt, 171, changed(f, 3, 258), 61)?;
    read_first(rt, 171, changed(f, 3, 512), 61)?;
    read_first(rt, 171, changed(older, 3, 0), 59)?;
    read_first(rt, 171, changed(older, 3, 257), 59)?;
    read_first(rt, 172, changed(f, 3, 1), 61)?;
    read_first(rt, 172, changed(older, 3, 2), 59)
}

// Files of version 1, and lengths that are those of the other version.
fn older_files(rt: &impl Print) -> io::Result<()> {
    let f = path_file_1();
    read_first(rt, 173, f, 61)?;
    read_first(rt, 173, path_file(), 59)?;
    read_first(rt, 174, changed(f, 5, 0), 59)?;
    read_first(rt, 174, changed(f, 19, 0), 59)?;
    read_first(rt, 174, changed(f, 27, 0), 59)?;
    read_first(rt, 174, changed(f, 49, 5), 59)?;
    read_first(rt, 174, changed(f, 49, 2), 59)
}

// Such a file read into buffers that are too short.
fn short_buffers(rt: &impl Print) -> io::Result<()> {
    let f = path_file_1();
    read_lent(
        rt,
        175,
        first(&f, 59),
        Room {
            positions: 4,
            ..room(5, 5)
        },
    )?;
    read_lent(rt, 175, first(&f, 59), room(5, 4))
}

pub(crate) fn all(rt: &impl Print) -> io::Result<()> {
    planned(rt)?;
    written(rt)?;
    read(rt)?;
    short(rt)?;
    other_versions(rt)?;
    older_files(rt)?;
    short_buffers(rt)
}
