// How often each answer was met, and how often the proved reader and the naive one differed.
use naive::{NaiveMesh, Refused, TOO_LARGE};
use std::io;
use tally::{Notes, Tally};

// One more than the greatest refusal.
const ANSWERS: usize = 27;

// `not_as_known` is how many texts there were whose known answer was not given by the naive reader. `subject` is what is tried, a line of the input or
// a number that draws, and `turn` how many comparisons of it were made: they tell where a difference is.
#[derive(Clone, Copy)]
pub(crate) struct Counts {
    texts: usize,
    answers: Tally<ANSWERS>,
    too_large: usize,
    not_as_known: usize,
    different: usize,
    subject: usize,
    turn: usize,
    notes: Notes,
}

// The number of an answer: that of the refusal, 0 for none.
pub(crate) fn number_of(answer: Result<NaiveMesh, Refused>) -> u32 {
    match answer {
        Ok(_) => 0,
        Err(refused) => refused.0,
    }
}

impl Counts {
    pub(crate) fn new() -> Counts {
        Counts {
            texts: 0,
            answers: Tally::new(),
            too_large: 0,
            not_as_known: 0,
            different: 0,
            subject: 0,
            turn: 0,
            notes: Notes::new(),
        }
    }

    pub(crate) fn begin(&mut self, subject: usize) {
        self.subject = subject;
        self.turn = 0;
    }

    // One more text.
    pub(crate) fn text(&mut self) {
        self.texts = self.texts.saturating_add(1);
    }

    // One more comparison, whose answer should be this one.
    pub(crate) fn count(&mut self, answer: Result<NaiveMesh, Refused>, same: bool) {
        self.turn = self.turn.saturating_add(1);
        if answer == Err(Refused(TOO_LARGE)) {
            self.too_large = self.too_large.saturating_add(1);
            return;
        }
        self.answers.raise(number_of(answer) as usize);
        if !same {
            self.notes.failed(
                &mut self.different,
                "different",
                "subject and turn",
                self.subject,
                self.turn,
            );
        }
    }

    // One more text whose known answer was not given, but this one.
    pub(crate) fn unlike_known(&mut self, refusal: u32) {
        self.notes.failed(
            &mut self.not_as_known,
            "different",
            "not as known, subject and answer",
            self.subject,
            refusal as usize,
        );
    }

    pub(crate) fn print(&self, rt: &impl Print) -> io::Result<()> {
        self.notes.print(rt)?;
        println!(rt; "texts {}", self.texts)?;
        println!(rt; "accepted {}", self.answers.times(0))?;
        self.answers.print(rt, "refused ", 1)?;
        println!(rt; "too large to compare {}", self.too_large)?;
        println!(rt; "not as known {}", self.not_as_known)?;
        println!(rt; "different {}", self.different)
    }
}
