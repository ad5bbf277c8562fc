// What test programs count: how often each answer was met, and the first places at which the proved code failed. Proved safe.
// Cost: each function O(1), or O(N) for a tally of N, but for what it prints.
#![tactic(auto)]

ghost use Rattle.std.specs.Prelude.{◌≡◌, get_or, replicate};
ghost use Rattle.tally.specs.Tallies.{raised};

use std::io;

// How often each of N answers was met.
#[derive(Clone, Copy)]
pub struct Tally<const N: usize> {
    times: [usize; N],
}

impl<const N: usize> Tally<N> {
    pub fn new() -> Tally<N>
        ensures { result.times ≡ replicate N 0 }
    {
        Tally { times: [0; N] }
    }

    // One more of this answer. What is no answer is not counted.
    pub fn raise(&mut self, answer: usize)
        ensures { self.new.times ≡ raised self.old.times answer }
    {
        if answer < N {
            self.times[answer] = self.times[answer].saturating_add(1);
        }
    }

    pub fn times(&self, answer: usize) -> usize
        ensures { result ≡ get_or self.now.times answer 0 }
    {
        self.times.get(answer).copied().unwrap_or(0)
    }

    // A line for each answer from `first` on that was met.
    pub fn print(&self, rt: &impl Print, label: &str, first: usize) -> io::Result<()> {
        for (answer, times) in self.times.iter().enumerate().skip(first) {
            if *times != 0 {
                println!(rt; "{label}{answer}: {times}")?;
            }
        }
        Ok(())
    }
}

// The most notes: twenty of each of two kinds of failure.
const NOTES: usize = 40;

const OF_A_KIND: usize = 20;

// Where something failed: what failed, what the two numbers behind it are, and these, which tell the place.
#[derive(Clone, Copy)]
struct Note {
    failure: &'static str,
    numbers: &'static str,
    first: usize,
    second: usize,
}

// Notes on failures, in the order in which they were made. A note is printed when all is tried.
// kept: an array with its length beside, for memory is fixed.
#[derive(Clone, Copy)]
pub struct Notes {
    notes: [Note; NOTES],
    length: usize,
}

impl Notes {
    pub fn new() -> Notes {
        let none = Note {
            failure: "",
            numbers: "",
            first: 0,
            second: 0,
        };
        Notes {
            notes: [none; NOTES],
            length: 0,
        }
    }

    // One more note, where there is room.
    fn push(&mut self, note: Note) {
        if self.length < NOTES {
            self.notes[self.length] = note;
            self.length += 1;
        }
    }

    // One more failure of a kind that is counted in `count`. The first twenty of a kind have a note each.
    pub fn failed(
        &mut self,
        count: &mut usize,
        failure: &'static str,
        numbers: &'static str,
        first: usize,
        second: usize,
    ) {
        if *count < OF_A_KIND {
            self.push(Note {
                failure,
                numbers,
                first,
                second,
            });
        }
        *count = count.saturating_add(1);
    }

    // A line for each note.
    pub fn print(&self, rt: &impl Print) -> io::Result<()> {
        for note in self.notes.iter().take(self.length) {
            let Note {
                failure,
                numbers,
                first,
                second,
            } = *note;
            println!(rt; "{failure}: {numbers} {first} {second}")?;
        }
        Ok(())
    }
}
