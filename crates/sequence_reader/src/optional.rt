// A field that is coded only under a condition, and else has an inferred value.
#![tactic(auto, using(reader::proofs::Reading::readings), unfolding(sequence::specs::Optional::f_if, sequence::specs::Optional::flag_if))]

ghost use Rattle.std.specs.Prelude.{min};
ghost use Rattle.reader.specs.Reading.{Said};
ghost use Rattle.sequence.specs.Optional.{f_if, flag_if};

use bits::answer::Refusal;
use reader::BitReader;

// f(n), if coded, or else the number that is inferred; a width over 32 counts as 32.
pub fn f_if(r: &mut BitReader, coded: bool, width: u32, inferred: u32) -> Result<u32, Refusal>
    ensures { Said (f_if coded (min width 32) 0 0 inferred).dec r.old r.new result }
{
    if coded { r.f(width) } else { Ok(inferred) }
}

pub fn flag_if(r: &mut BitReader, coded: bool, inferred: bool) -> Result<bool, Refusal>
    ensures { Said (flag_if coded 0 0 inferred).dec r.old r.new result }
{
    if coded { r.flag() } else { Ok(inferred) }
}
