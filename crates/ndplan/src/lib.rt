// The C interface: plan, read, write, the three questions, the reader of Matrix Market texts, the joining of two meshes and the family of a number
// under C names. A slice is a pointer and a length.
#![tactic(auto)]

mod entries;
mod replies;

pub use entries::{
    ndp_family, ndp_join, ndp_matrix_market, ndp_pair, ndp_plan, ndp_read, ndp_rows, ndp_slot,
    ndp_write,
};
pub use replies::{NdpMesh, NdpPair, NdpPlan, NdpRows, NdpSlot, NdpWritten};
