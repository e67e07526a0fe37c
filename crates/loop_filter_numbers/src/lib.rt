// 5.9.11 from numbers: the record that they are, and the part that it writes.
#![tactic(auto)]

pub mod place; // place.rt: where each number stands
pub mod record; // record.rt: the record from its numbers

ghost use Rattle.parts.specs.Written.{Writes};
ghost use Rattle.loop_filter_numbers.specs.Numbers.{loop_filter_walk};

use crate::record::*;
use bits::answer::Refusal;
use loop_filter::write::write_loop_filter_params;

pub fn write_loop_filter_numbers(
    record: &[i32; 20],
    out: &mut [u8],
    place: u32,
) -> Result<u32, Refusal>
    ensures { Writes (loop_filter_walk «record».now) place out.old result out.new }
{
    write_loop_filter_params(
        loop_filter_params(record),
        loop_filter_context(record),
        out,
        place,
    )
}
