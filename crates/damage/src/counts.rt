// How often each operation was met with each answer, and how often the proved code and the naive code differed.
use naive::{Refused, TOO_LARGE};
use plan::Refusal;
use std::io;
use tally::{Notes, Tally};

// The operations: first those that are counted by their answers. `OldRead` is reading in the workshop that never updates.
#[derive(Clone, Copy)]
pub(crate) enum Operation {
    Read,
    OldRead,
    Write,
    Pair,
    Column,
    Slot,
    RoundTrip,
    Plan,
}

impl Operation {
    // What is printed where the proved code and the naive code differ.
    // kept: a text and no `Display`, for a note keeps it until all is tried.
    fn difference(self) -> &'static str {
        match self {
            Operation::Read => "read different",
            Operation::OldRead => "old read different",
            Operation::Write => "write different",
            Operation::Pair => "pair different",
            Operation::Column => "column different",
            Operation::Slot => "slot different",
            Operation::RoundTrip => "round trip different",
            Operation::Plan => "plan different",
        }
    }
}

// What is printed before the answers of each operation that is counted by them.
const LABELS: [&'static str; 6] = ["read ", "old read ", "write ", "pair ", "column ", "slot "];

// How many answers there are to each: 0, which is no refusal, and the refusals up to 28.
const ANSWERS: usize = 29;

// The subjects, by the number of their first: the meshes that `main` gives by their edges and the plans with every slot, in turn; meshes that a seed
// draws; lists to be written, and layouts, that a seed draws; and plans with every choice of parents.
pub(crate) const GIVEN: usize = 0;

pub(crate) const DRAWN_MESHES: usize = 1000;

pub(crate) const DRAWN_DRAFTS: usize = 2000;

pub(crate) const DRAWN_LAYOUTS: usize = 6000;

pub(crate) const TREES: usize = 7000;

// Answers by operation and refusal. `subject` is what is tried, and `turn` how many comparisons of it were made: they tell where a difference is. The
// notes are those of the first differences.
#[derive(Clone, Copy)]
pub(crate) struct Counts {
    met: [Tally<ANSWERS>; 6],
    too_large: usize,
    meshes_refused: usize,
    round_trips: usize,
    different: usize,
    subject: usize,
    turn: usize,
    notes: Notes,
}

impl Counts {
    pub(crate) fn new() -> Counts {
        Counts {
            met: [Tally::new(); 6],
            too_large: 0,
            meshes_refused: 0,
            round_trips: 0,
            different: 0,
            subject: 0,
            turn: 0,
            notes: Notes::new(),
        }
    }

    // The next subject, `number` behind `first`.
    pub(crate) fn begin(&mut self, first: usize, number: u64) {
        self.subject = first.saturating_add(number as usize);
        self.turn = 0;
    }

    // One more comparison.
    fn compare(&mut self, operation: Operation, same: bool) {
        self.turn = self.turn.saturating_add(1);
        if !same {
            self.notes.failed(
                &mut self.different,
                operation.difference(),
                "subject and turn",
                self.subject,
                self.turn,
            );
        }
    }

    // One more plan written, read and written again.
    pub(crate) fn returned(&mut self, same: bool) {
        self.round_trips = self.round_trips.saturating_add(1);
        self.compare(Operation::RoundTrip, same);
    }

    // One more drawn mesh that planning refuses, as it should for 26 alone: such a mesh has no other fault.
    pub(crate) fn refused(&mut self, refusal: Refusal) {
        self.meshes_refused = self.meshes_refused.saturating_add(1);
        self.compare(Operation::Plan, refusal == Refusal::TooManyNeighbours);
    }

    // One more answer of an operation. Where the naive code has none (too large), nothing is compared.
    pub(crate) fn count(&mut self, operation: Operation, refusal: Option<Refused>, same: bool) {
        let number = refusal.map_or(0, |refusal| refusal.0);
        if number == TOO_LARGE {
            self.too_large = self.too_large.saturating_add(1);
            return;
        }
        if let Some(met) = self.met.get_mut(operation as usize) {
            met.raise(number as usize);
        }
        self.compare(operation, same);
    }

    // A line for each answer that was met.
    pub(crate) fn print(&self, rt: &impl Print) -> io::Result<()> {
        self.notes.print(rt)?;
        for (label, met) in LABELS.iter().zip(self.met.iter()) {
            met.print(rt, label, 0)?;
        }
        println!(rt; "too large to compare {}", self.too_large)?;
        println!(rt; "meshes refused {}", self.meshes_refused)?;
        println!(rt; "round trips {}", self.round_trips)?;
        println!(rt; "different {}", self.different)
    }
}
