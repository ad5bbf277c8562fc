// What the factor holds at a pair of positions, for document 02's E9: the answer about the pair, and the number that stands there. Right for every n.
use crate::given::{GivenValues, NodeLists};
use crate::lists::item;
use crate::questions::{NaivePair, check_layout, slot_of_pair};
use crate::refused::Refused;

// The number that is held at the pair, or none: "there is no slot". "It checks 1, 22, 30, then 21": for 30 the slots are as many as the last column
// start says.
pub fn held_at(
    layout: NodeLists,
    lent: GivenValues,
    a: usize,
    b: usize,
) -> Result<Option<f64>, Refused> {
    check_layout(layout)?;
    lent.check(layout.nodes, layout.start(layout.nodes))?;
    match slot_of_pair(layout, a, b)? {
        NaivePair::Slot(slot) => Ok(Some(item(lent.values, slot))),
        NaivePair::Diagonal => Ok(Some(item(lent.diagonal, a))),
        NaivePair::NoSlot => Ok(None),
    }
}
