// The sequence header OBU (5.5), read into the record's numbers.
#![tactic(auto, using(fill::proofs::Filling::fillings))]

mod body; // body.rt: 5.5.1, whole
mod color; // color.rt: 5.5.2
mod frame; // frame.rt: the frame's size and identifiers
mod general; // general.rt: 5.5.3, 5.5.4, and 5.5.1 up to the operating points
mod optional; // optional.rt: fields that are coded or inferred
pub mod place; // place.rt: where each number stands
mod points; // points.rt: the operating points, and 5.5.5
pub mod read; // read.rt: the public calls
mod tools; // tools.rt: the coding tools
