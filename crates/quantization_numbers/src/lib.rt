// 5.9.12 from numbers: the record that they are, and the part that it writes.
#![tactic(auto)]

pub mod place; // place.rt: where each number stands
pub mod record; // record.rt: the record from its numbers

ghost use Rattle.parts.specs.Written.{Writes};
ghost use Rattle.quantization_numbers.specs.Numbers.{quantization_walk};

use crate::record::*;
use bits::answer::Refusal;
use quantization::write::write_given;

pub fn write_quantization_numbers(
    record: &[i32; 13],
    out: &mut [u8],
    place: u32,
) -> Result<u32, Refusal>
    ensures { Writes (quantization_walk «record».now) place out.old result out.new }
{
    write_given(
        quantization_params(record),
        quantization_deltas(record),
        quantization_context(record),
        out,
        place,
    )
}
