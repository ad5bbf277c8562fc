// How many fillings were factored, solved and read, how many refused by each number, and on how many the library and `naive` differed.
use std::io;
use tally::{Notes, Tally};

// One more than the greatest refusal.
const ANSWERS: usize = 32;

// What is asked: to factor, to solve and to read at a pair.
#[derive(Clone, Copy)]
pub(crate) enum Asked {
    Factor,
    Solve,
    Read,
}

// What is answered: a number, 0 or a refusal; a solution whose first entry, the last that is reached, is not finite; no slot.
#[derive(Clone, Copy)]
pub(crate) enum Answer {
    Number(u32),
    NotFinite,
    NoSlot,
}

// What became of a filling: whether both answered and left the same, and whether the library counted as many operations as were planned, if it
// factored.
#[derive(Clone, Copy)]
pub(crate) struct Outcome {
    pub(crate) asked: Asked,
    pub(crate) answer: Answer,
    pub(crate) same: bool,
    pub(crate) as_planned: bool,
}

impl Outcome {
    // The number that tells in a note what was asked and answered: 32 numbers are for each of what is asked, in turn, then one for each other answer.
    fn place(self) -> usize {
        match self.answer {
            Answer::Number(number) => self.asked as usize * ANSWERS + number as usize % ANSWERS,
            Answer::NotFinite => 96,
            Answer::NoSlot => 97,
        }
    }
}

// `turn` is how many answers there were: it tells where a difference is.
#[derive(Clone, Copy)]
pub(crate) struct Counts {
    factored: Tally<ANSWERS>,
    solved: Tally<ANSWERS>,
    read: Tally<ANSWERS>,
    not_finite: usize,
    no_slot: usize,
    not_as_planned: usize,
    different: usize,
    turn: usize,
    notes: Notes,
}

impl Counts {
    pub(crate) fn new() -> Counts {
        Counts {
            factored: Tally::new(),
            solved: Tally::new(),
            read: Tally::new(),
            not_finite: 0,
            no_slot: 0,
            not_as_planned: 0,
            different: 0,
            turn: 0,
            notes: Notes::new(),
        }
    }

    fn answered(&mut self, asked: Asked, number: usize) {
        match asked {
            Asked::Factor => self.factored.raise(number),
            Asked::Solve => self.solved.raise(number),
            Asked::Read => self.read.raise(number),
        }
    }

    // One more answer.
    pub(crate) fn count(&mut self, o: Outcome) {
        self.turn = self.turn.saturating_add(1);
        match o.answer {
            Answer::Number(number) => self.answered(o.asked, number as usize),
            Answer::NotFinite => self.not_finite = self.not_finite.saturating_add(1),
            Answer::NoSlot => self.no_slot = self.no_slot.saturating_add(1),
        }
        if !o.as_planned {
            self.not_as_planned = self.not_as_planned.saturating_add(1);
        }
        if !o.same {
            self.notes.failed(
                &mut self.different,
                "different",
                "place, turn",
                o.place(),
                self.turn,
            );
        }
    }

    pub(crate) fn print(&self, rt: &impl Print) -> io::Result<()> {
        self.notes.print(rt)?;
        println!(rt; "factored {}", self.factored.times(0))?;
        self.factored.print(rt, "refused ", 1)?;
        println!(rt; "solved {}", self.solved.times(0))?;
        println!(rt; "solved, and not finite {}", self.not_finite)?;
        self.solved.print(rt, "refused ", 1)?;
        println!(rt; "read {}", self.read.times(0))?;
        println!(rt; "no slot {}", self.no_slot)?;
        self.read.print(rt, "refused ", 1)?;
        println!(rt; "not as many operations as planned {}", self.not_as_planned)?;
        println!(rt; "different {}", self.different)
    }
}
