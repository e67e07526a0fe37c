// The calls that the library for C exports (friscurella_c): a record crosses as an array of numbers, in the order of the case lines.
#![tactic(auto)]

pub mod calls; // calls.rt: the calls
