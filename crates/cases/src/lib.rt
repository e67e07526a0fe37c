// Case lines (docs/CASE-LINES.md), taken apart: the word, its numbers, its settings.
#![tactic(auto)]

pub mod fields; // fields.rt: the numbers, by what each field holds
pub mod settings; // settings.rt: the buffer or the input, and the place
pub mod signed; // signed.rt: numbers that may be below 0
pub mod word; // word.rt: the word
