// What the five frame parts of document 01 share: a part's bits are written at a bit place, or it is refused and no bit is.
#![tactic(auto)]

pub mod delta; // delta.rt: deltas that are coded
pub mod inferred; // inferred.rt: deltas that are not coded
pub mod pair; // pair.rt: two fields stored as one
pub mod place; // place.rt: the room for a part at a place
