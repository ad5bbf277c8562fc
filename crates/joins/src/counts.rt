// How often each answer was met, and how often the proved joining and the naive one differed.
use naive::{NaiveMesh, Refused};
use std::io;
use tally::{Notes, Tally};

// One more than the greatest refusal.
const ANSWERS: usize = 34;

// The naive answer to a comparison, whether that is as known, and whether both answered and left the same.
#[derive(Clone, Copy)]
pub(crate) struct Outcome {
    pub(crate) answer: Result<NaiveMesh, Refused>,
    pub(crate) as_known: bool,
    pub(crate) same: bool,
}

// `answers` has a count for each refusal, and at 0 for the joined meshes. `group` is which of the program's parts is run, and `turn` how many
// comparisons were made in it: they tell where a difference is.
#[derive(Clone, Copy)]
pub(crate) struct Counts {
    answers: Tally<ANSWERS>,
    not_as_known: usize,
    different: usize,
    group: usize,
    turn: usize,
    notes: Notes,
}

impl Counts {
    pub(crate) fn new() -> Counts {
        Counts {
            answers: Tally::new(),
            not_as_known: 0,
            different: 0,
            group: 0,
            turn: 0,
            notes: Notes::new(),
        }
    }

    pub(crate) fn begin(&mut self, group: usize) {
        self.group = group;
        self.turn = 0;
    }

    // One more comparison.
    pub(crate) fn count(&mut self, o: Outcome) {
        self.turn = self.turn.saturating_add(1);
        let number = o.answer.err().map_or(0, |refusal| refusal.0);
        self.answers.raise(number as usize);
        if !o.as_known {
            self.notes.failed(
                &mut self.not_as_known,
                "different",
                "not as known, part and turn",
                self.group,
                self.turn,
            );
        }
        if !o.same {
            self.notes.failed(
                &mut self.different,
                "different",
                "part and turn",
                self.group,
                self.turn,
            );
        }
    }

    pub(crate) fn print(&self, rt: &impl Print) -> io::Result<()> {
        self.notes.print(rt)?;
        println!(rt; "accepted {}", self.answers.times(0))?;
        self.answers.print(rt, "refused ", 1)?;
        println!(rt; "not as known {}", self.not_as_known)?;
        println!(rt; "different {}", self.different)
    }
}
