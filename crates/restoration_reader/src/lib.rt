// 5.9.20 lr_params, read.
#![tactic(auto)]

pub mod read; // read.rt: the part, read
