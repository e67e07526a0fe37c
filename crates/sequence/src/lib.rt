// The sequence header OBU (5.5): its record.
#![tactic(auto)]

pub mod group; // group.rt: the record in groups, one for each table
pub mod record; // record.rt: the record
