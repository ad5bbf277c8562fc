// Meshes of at most 64 nodes for the test programs, given by their edges or drawn from a seed, sound or damaged; the buffers that planners are
// lent, and whether these hold what `naive` says. Proved safe.
// Cost: every function is polynomial in 64 and in the lengths of what it is lent.
#![tactic(auto)]

mod buffers;
mod damage;
mod graph;
mod held;
mod lent;
mod numbers;
mod random;
mod relisted;
mod shape;
mod unknowns;

pub use buffers::{first, front, holds};
pub use damage::damaged;
pub use graph::{from_edges, numbered, star};
pub use held::{Buffers, Held};
pub use lent::{Case, Lengths, least};
pub use numbers::{less, more, print_number};
pub use random::draw;
pub use shape::drawn;
pub use unknowns::{REFUSED_UNKNOWNS, allowed_unknowns, refused_unknowns};
