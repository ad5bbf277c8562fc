// The C interface of the second library: factoring, the solution and the factor at a pair under C names. A slice is a pointer and a length.
#![tactic(auto)]

mod entries;
mod replies;

pub use entries::{ndf_factor, ndf_held, ndf_solve};
pub use replies::{NdfHeld, NdfReport};
