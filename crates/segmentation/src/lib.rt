// 5.9.14, the segmentation parameters.
#![tactic(auto)]

pub mod feature; // feature.rt: the bits and the limit of each feature
mod packed; // packed.rt: one feature, as one field
pub mod record; // record.rt: the record, and what it goes by
pub mod write; // write.rt: 5.9.14, written
