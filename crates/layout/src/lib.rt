// The layout of the triangular factor of a mesh in a given order: its elimination tree, its column counts, and the rows of its columns.
// With it are the questions over a layout, and the checks that several entry points share.
#![tactic(auto)]

mod checked;
mod checks;
mod columns;
mod counts;
mod ordered;
mod positions;
mod questions;
mod slots;

pub use checks::{bad_column, buffers_too_short};
pub use columns::{mark_rows, write_columns};
pub use counts::{Totals, count_rows, sum, write_starts};
pub use positions::invert;
pub use questions::{column_refusal, column_rows, column_span, slot_of_pair};
pub use slots::pair_of_slot;
