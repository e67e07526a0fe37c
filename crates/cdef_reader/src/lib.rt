// 5.9.19 cdef_params, read.
#![tactic(auto)]

pub mod read; // read.rt: the part, read
