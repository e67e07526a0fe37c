// Deltas that are coded: a set flag and the delta.
ghost use Rattle.std.specs.Prelude.{true};
ghost use Rattle.bits.specs.Walk.{mark, ◌⊕◌};
ghost use Rattle.bits.specs.Codes.{su};
ghost use Rattle.writer.specs.Walked.{Walked};

use bits::answer::*;
use writer::BitWriter;
use writer::number::su_code;

// Where the delta fits, the two are one field.
pub fn coded_delta(w: &mut BitWriter, delta: i32, element: u8, index: u8) -> Result<(), Refusal>
    ensures { Walked (mark true ⊕ (su 7 element index).enc delta) w.old w.new result }
{
    let code = su_code(delta, 7);
    if code < 128 {
        return w.f(8, 128 + code, element, index);
    }
    w.flag(true)?;
    w.su(7, delta, element, index)
}
