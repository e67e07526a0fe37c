// The four codes once more, both ways: each function has the contract of the function of its name, and does nothing but call it. The wrong programs in
// must-fail/ are other bodies: what a contract rules out is tried here, where a try takes seconds.
#![tactic(auto)]

pub mod read; // read.rt: the codes read
pub mod written; // written.rt: the codes written
