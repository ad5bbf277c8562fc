// The text that is written: each method puts what it is named for behind what the text holds.
ghost use Rattle.std.specs.Prelude.{◌≡◌, List, ℕ, [], ◌∷◌, ◌++◌, ◌+◌, ◌≤◌, length};
ghost use Rattle.plan.specs.Refusals.{number_of};
ghost use Rattle.plan.specs.Listing.{decimal, spaced, line_of, refusal_line};
ghost use Rattle.text.specs.Lines.{labelled, head_of};
ghost use Rattle.text.specs.Room.{longest};

use arrayvec::ArrayString;
use itoa::Buffer;
use plan::{Plan, Refusal};
use std::marker::Model;

// How many bytes the text has room for. No listing is longer: the first line has at most 32 bytes, each of 256 lines at most 12 besides its rows, and
// each of 32,640 rows takes at most 4, together 133,664; the next multiple of 4,096 is taken.
const LONGEST: usize = 135168;

// A text of at most 135,168 bytes, which lie in the value itself. Clauses see its bytes.
#[derive(Drop)]
pub struct Text {
    chars: ArrayString<LONGEST>,
}

impl Model for Text {
    ghost Value = { List ℕ };

    ghost view = { λ t. t.chars.bytes };
}

impl Text {
    // A text of nothing. O(135,168).
    pub(crate) fn new() -> Text
        ensures { result ≡ [] }
    {
        Text {
            chars: ArrayString::new(),
        }
    }

    // Its bytes. O(1).
    pub fn as_bytes(&self) -> &[u8]
        ensures { result.now ≡ self.now }
    {
        self.chars.as_str().as_bytes()
    }

    // A word. O(length).
    fn word(&mut self, word: &str)
        requires { length self.old + length word.now ≤ longest }
        ensures { self.new ≡ self.old ++ word.now }
    {
        self.chars.push_str(word);
    }

    // A number in decimal. O(digits).
    fn decimal(&mut self, x: usize)
        requires { length self.old + length (decimal x) ≤ longest }
        ensures { self.new ≡ self.old ++ decimal x }
    {
        self.word(Buffer::new().format(x));
    }

    // A number behind a space. O(digits).
    fn spaced(&mut self, x: usize)
        requires { length self.old + length (spaced (x ∷ [])) ≤ longest }
        ensures { self.new ≡ self.old ++ spaced (x ∷ []) }
    {
        self.word(" ");
        self.decimal(x);
    }

    // Numbers, each behind a space. O(length · digits).
    fn all(&mut self, numbers: &[u16])
        requires { length self.old + length (spaced numbers.now) ≤ longest }
        ensures { self.new ≡ self.old ++ spaced numbers.now }
    {
        for &x in numbers {
            self.spaced(x as usize);
        }
    }

    // A word, and a number behind a space. O(length + digits).
    fn labelled(&mut self, word: &str, x: u32)
        requires { length self.old + length (labelled word.now x) ≤ longest }
        ensures { self.new ≡ self.old ++ labelled word.now x }
    {
        self.word(word);
        self.spaced(x as usize);
    }

    // The first line: nodes, parts, slots. O(digits).
    pub(crate) fn head(&mut self, counts: Plan)
        requires { length self.old + length (head_of counts.nodes counts.parts counts.slots) ≤ longest }
        ensures { self.new ≡ self.old ++ head_of counts.nodes counts.parts counts.slots }
    {
        self.labelled("nodes", counts.nodes);
        self.labelled(" parts", counts.parts);
        self.labelled(" slots", counts.slots);
        self.word("\n");
    }

    // A position's line: position, node, part, rows. O(rows · digits).
    pub(crate) fn line(&mut self, position: usize, node: usize, part: usize, rows: &[u16])
        requires { length self.old + length (line_of position node part rows.now) ≤ longest }
        ensures { self.new ≡ self.old ++ line_of position node part rows.now }
    {
        self.decimal(position);
        self.spaced(node);
        self.spaced(part);
        self.all(rows);
        self.word("\n");
    }

    // A refusal: "refused" and its number. O(digits).
    pub(crate) fn refusal(&mut self, refusal: Refusal)
        requires { length self.old + length (refusal_line (number_of refusal)) ≤ longest }
        ensures { self.new ≡ self.old ++ refusal_line (number_of refusal) }
    {
        self.labelled("refused", refusal.number());
        self.word("\n");
    }
}
