// 5.9.12 and 5.9.13, the quantization parameters.
#![tactic(auto)]

pub mod record; // record.rt: the record, and what it goes by
pub mod write; // write.rt: both, written
