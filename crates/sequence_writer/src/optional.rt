// A field that is coded only under a condition, and else must hold an inferred value.
ghost use Rattle.std.specs.Prelude.{false};
ghost use Rattle.writer.specs.Walked.{Walked};
ghost use Rattle.bits.specs.Codec.{inferred_flag};
ghost use Rattle.sequence.specs.Optional.{f_if, flag_if};

use bits::answer::*;
use writer::BitWriter;

pub fn f_if(
    w: &mut BitWriter,
    coded: bool,
    width: u32,
    value: u32,
    inferred: u32,
    element: u8,
    index: u8,
) -> Result<(), Refusal>
    ensures { Walked ((f_if coded width element index inferred).enc value) w.old w.new result }
{
    if coded {
        return w.f(width, value, element, index);
    }
    w.demand(value == inferred, element, index)
}

// A flag that must be 0.
pub fn unset(w: &mut BitWriter, value: bool, element: u8) -> Result<(), Refusal>
    ensures { Walked ((inferred_flag element 0 false).enc value) w.old w.new result }
{
    w.demand(!value, element, 0)
}

// The same of a flag. (One function for both would take a trait with a law, longer than this body.)
pub fn flag_if(
    w: &mut BitWriter,
    coded: bool,
    value: bool,
    inferred: bool,
    element: u8,
    index: u8,
) -> Result<(), Refusal>
    ensures { Walked ((flag_if coded element index inferred).enc value) w.old w.new result }
{
    if coded {
        return w.flag(value);
    }
    w.inferred_flag(value, inferred, element, index)
}
