// 5.9.12 quantization_params, read.
#![tactic(auto)]

pub mod read; // read.rt: the part, read
