// 5.9.11 loop_filter_params, read.
#![tactic(auto)]

pub mod read; // read.rt: the part, read
