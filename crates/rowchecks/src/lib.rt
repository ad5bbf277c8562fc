// Checks 17 to 19 of a plan's rows, lent as numbers or standing in the bytes of a file. 17's rule of the rows and 18 share one walk (document 02, E6).
#![tactic(auto)]

mod columns;
mod faults;
mod ranges;
mod rows;
mod walks;

pub use faults::RowFaults;
pub use rows::{Encoded, Lent, Rows};
pub use walks::{check_rows, not_covered, walk};
