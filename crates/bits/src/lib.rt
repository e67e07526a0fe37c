// The definitions that the library stands on, with their laws; and what a step answers.
#![tactic(auto)]

pub mod answer; // answer.rt: why nothing was written or read, and the numbers of an answer
pub mod element; // element.rt: the elements that a refusal can name
pub mod number; // number.rt: the smaller of two numbers, powers of two, and bit lengths
pub mod slice; // slice.rt: bytes of one slice put into another
