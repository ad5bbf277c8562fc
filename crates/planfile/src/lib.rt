// The plan file: reading version 1 or 2 into lent buffers, and writing version 2 from lent slices.
#![tactic(auto)]

mod file;
mod lent;
mod reader;
mod writer;

pub use lent::LentPlan;
pub use reader::read;
pub use writer::write;
