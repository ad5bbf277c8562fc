// What a case wrote, as lines of numbers.
use crate::results::Results;
use meshes::first;
use naive::Room;
use plan::{Pair, PairAnswer, Plan, Refusal, RefusalFamily};
use std::fmt::Display;
use std::io;

// The case's number: below 20 document 01's row.
pub(crate) fn print_title(rt: &impl Print, number: u8) -> io::Result<()> {
    println!(rt; "case {number}")
}

fn print_refusal(rt: &impl Print, refusal: Refusal) -> io::Result<()> {
    println!(rt; "refused {}", refusal.number())
}

// Nodes, parts, slots, multiplications and unknowns, or the refusal's number.
pub(crate) fn print_answer(rt: &impl Print, answer: Result<Plan, Refusal>) -> io::Result<()> {
    match answer {
        Ok(p) => println!(rt;
            "accepted {} {} {} {} {}",
            p.nodes, p.parts, p.slots, p.multiplications, p.unknowns
        ),
        Err(refusal) => print_refusal(rt, refusal),
    }
}

// The entries of a buffer in a line, each behind a space.
pub(crate) fn print_entries<T: Display>(rt: &impl Print, entries: &[T]) -> io::Result<()> {
    for x in entries {
        print!(rt; " {x}")?;
    }
    println!(rt; "")
}

// The fronts of the six buffers that planning and reading are lent, a line for each.
pub(crate) fn print_results(rt: &impl Print, results: &Results, room: Room) -> io::Result<()> {
    print_entries(rt, first(&results.order, room.order))?;
    print_entries(rt, first(&results.positions, room.positions))?;
    print_entries(rt, first(&results.sizes, room.sizes))?;
    print_entries(rt, first(&results.parents, room.parents))?;
    print_entries(rt, first(&results.column_starts, room.column_starts))?;
    print_entries(rt, first(&results.rows, room.rows))
}

// The file's length, or the refusal's number.
pub(crate) fn print_written(rt: &impl Print, answer: Result<usize, Refusal>) -> io::Result<()> {
    match answer {
        Ok(length) => println!(rt; "written {length}"),
        Err(refusal) => print_refusal(rt, refusal),
    }
}

// A refusal's number and its family.
pub(crate) fn print_family(rt: &impl Print, number: u32) -> io::Result<()> {
    let family = match plan::family(number) {
        RefusalFamily::Mesh => "mesh",
        RefusalFamily::File => "file",
        RefusalFamily::Program => "program",
        RefusalFamily::Question => "question",
        RefusalFamily::None => "none",
    };
    println!(rt; "{number} {family}")
}

// The slot, "diagonal", "no slot", or the refusal's number.
pub(crate) fn print_slot_of_pair(
    rt: &impl Print,
    answer: Result<PairAnswer, Refusal>,
) -> io::Result<()> {
    match answer {
        Ok(PairAnswer::Slot(slot)) => println!(rt; "slot {slot}"),
        Ok(PairAnswer::Diagonal) => println!(rt; "diagonal"),
        Ok(PairAnswer::NoSlot) => println!(rt; "no slot"),
        Err(refusal) => print_refusal(rt, refusal),
    }
}

// The row and the column, or the refusal's number.
pub(crate) fn print_pair_of_slot(rt: &impl Print, answer: Result<Pair, Refusal>) -> io::Result<()> {
    match answer {
        Ok(pair) => println!(rt; "pair {} {}", pair.row, pair.column),
        Err(refusal) => print_refusal(rt, refusal),
    }
}

// The refusal's number, or 0.
pub(crate) fn print_number_of(rt: &impl Print, answer: Result<(), Refusal>) -> io::Result<()> {
    let number = answer.err().map_or(0, |refusal| refusal.number());
    println!(rt; "{number}")
}
