// 5.9.20, the loop restoration parameters.
#![tactic(auto)]

mod packed; // packed.rt: the kinds of three planes, as one field where they fit
pub mod record; // record.rt: the record, and what it goes by
pub mod write; // write.rt: 5.9.20, written
