// What each part of a frame header goes by, from the sequence header and the frame's own values.
#![tactic(auto)]

pub mod of_numbers; // of_numbers.rt: from the record's numbers, as numbers
pub mod of_record; // of_record.rt: from the record
