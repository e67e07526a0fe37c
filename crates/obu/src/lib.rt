// The OBU of the AV1 standard (5.3): header, size and trailing bits around any payload, and the temporal delimiter.
#![tactic(auto)]

pub mod answer; // answer.rt: what a public writer answers
pub mod delimiter; // delimiter.rt: the temporal delimiter
pub mod header; // header.rt: the record of an OBU header
pub mod read; // read.rt: header, size and trailing bits read
pub mod write; // write.rt: header, size and trailing bits written
