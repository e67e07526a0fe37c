// f(n), su(n), uvlc and leb128, written.
ghost use Rattle.std.specs.Prelude.{min};
ghost use Rattle.bits.specs.Walk.{unsigned};
ghost use Rattle.bits.specs.Codes.{uvlc, su, leb128};
ghost use Rattle.writer.specs.Walked.{Walked};

use bits::answer::*;
use writer::BitWriter;

pub fn f(w: &mut BitWriter, width: u32, value: u32, element: u8, index: u8) -> Result<(), Refusal>
    ensures { Walked (unsigned width value element index) w.old w.new result }
{
    w.f(width, value, element, index)
}

pub fn su(w: &mut BitWriter, width: u32, value: i32, element: u8, index: u8) -> Result<(), Refusal>
    ensures { Walked ((su (min width 32) element index).enc value) w.old w.new result }
{
    w.su(width, value, element, index)
}

pub fn uvlc(w: &mut BitWriter, value: u32, element: u8, index: u8) -> Result<(), Refusal>
    ensures { Walked ((uvlc element index).enc value) w.old w.new result }
{
    w.uvlc(value, element, index)
}

pub fn leb128(w: &mut BitWriter, value: u32) -> Result<(), Refusal>
    ensures { Walked ((leb128 8).enc value) w.old w.new result }
{
    w.leb128(value)
}
