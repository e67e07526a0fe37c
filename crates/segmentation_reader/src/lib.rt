// 5.9.14 segmentation_params, read.
#![tactic(auto)]

mod feature; // feature.rt: one feature, read
pub mod read; // read.rt: the part, read
