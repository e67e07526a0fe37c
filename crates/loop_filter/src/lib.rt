// 5.9.11, the loop filter parameters.
#![tactic(auto)]

pub mod record; // record.rt: the record, and what it goes by
pub mod write; // write.rt: 5.9.11, written
