// Checks of a plan file's fields before its rows, which reader and writer share: the header's (10 to 14, 28), the order's and the parts' (15 and 16).
#![tactic(auto)]

mod header;
mod order;

pub use header::{HEADER, Head, MAGIC, VERSION, bad_header, check_head, file_length, read_head};
pub use order::check_order_and_parts;
