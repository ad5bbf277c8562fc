// Factoring in a plan's slots, "with the LDLᵀ form of document 002, in 64-bit floats": the checks, then column after column, in two lent buffers. With
// it are the solution in a lent vector, and reading the factor at a pair.
#![tactic(auto)]

mod column;
mod columns;
mod entry;
mod held;
mod passes;
mod rows;
mod solution;
mod table;

pub use entry::factor;
pub use held::held_at;
pub use solution::solve;
