// 5.9.14 from numbers: the record that they are, and the part that it writes.
#![tactic(auto)]

pub mod place; // place.rt: where each number stands
pub mod record; // record.rt: the record from its numbers

ghost use Rattle.parts.specs.Written.{Writes};
ghost use Rattle.segmentation_numbers.specs.Numbers.{segmentation_walk};

use crate::record::*;
use bits::answer::Refusal;
use segmentation::write::write_segmentation_params;

pub fn write_segmentation_numbers(
    record: &[i32; 133],
    out: &mut [u8],
    place: u32,
) -> Result<u32, Refusal>
    ensures { Writes (segmentation_walk «record».now) place out.old result out.new }
{
    write_segmentation_params(
        segmentation_params(record),
        segmentation_context(record),
        out,
        place,
    )
}
