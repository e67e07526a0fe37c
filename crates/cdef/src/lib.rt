// 5.9.19, the CDEF parameters.
#![tactic(auto)]

mod packed; // packed.rt: the strengths of one place, as one field where they fit
pub mod record; // record.rt: the record, and what it goes by
pub mod write; // write.rt: 5.9.19, written
