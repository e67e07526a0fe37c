// 5.9.19 from numbers: the record that they are, and the part that it writes.
#![tactic(auto)]

pub mod place; // place.rt: where each number stands
pub mod record; // record.rt: the record from its numbers

ghost use Rattle.parts.specs.Written.{Writes};
ghost use Rattle.cdef_numbers.specs.Numbers.{cdef_walk};

use crate::record::*;
use bits::answer::Refusal;
use cdef::write::write_cdef_params;

pub fn write_cdef_numbers(record: &[i32; 38], out: &mut [u8], place: u32) -> Result<u32, Refusal>
    ensures { Writes (cdef_walk «record».now) place out.old result out.new }
{
    write_cdef_params(cdef_params(record), cdef_context(record), out, place)
}
