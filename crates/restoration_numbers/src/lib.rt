// 5.9.20 from numbers: the record that they are, and the part that it writes.
#![tactic(auto)]

pub mod place; // place.rt: where each number stands
pub mod record; // record.rt: the record from its numbers

ghost use Rattle.parts.specs.Written.{Writes};
ghost use Rattle.restoration_numbers.specs.Numbers.{lr_walk};

use crate::record::*;
use bits::answer::Refusal;
use restoration::write::write_lr_params;

pub fn write_restoration_numbers(
    record: &[i32; 14],
    out: &mut [u8],
    place: u32,
) -> Result<u32, Refusal>
    ensures { Writes (lr_walk «record».now) place out.old result out.new }
{
    write_lr_params(lr_params(record), lr_context(record), out, place)
}
