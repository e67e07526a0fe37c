// What the readers of the five frame parts share: a part is read from a bit place on into its record's numbers, or it is refused and no number changes.
#![tactic(auto)]

pub mod delta; // delta.rt: a flag and a delta
pub mod place; // place.rt: where a part's reading begins
