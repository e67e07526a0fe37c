// Lines of text: out of standard input, numbers and bytes out of a line, and an answer into a lent slice.
#![tactic(auto)]

pub mod answer;
pub mod input;
pub mod parse;
pub mod signed; // signed.rt: numbers with a sign
