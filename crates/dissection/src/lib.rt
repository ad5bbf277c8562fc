// Nested dissection of a mesh that has passed checks 1 to 7 and 26.
#![tactic(auto)]

mod cut;
mod degrees;
mod levels;
mod numbers;
mod parts;
mod region;
mod root;
mod state;
mod touch;

pub use parts::{write_order, write_parts};
pub use state::{Dissection, dissect};
