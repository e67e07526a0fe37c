// Deltas that are not coded.
ghost use Rattle.writer.specs.Walked.{Walked};
ghost use Rattle.parts.specs.Codes.{inferred_signed};

use bits::answer::*;
use writer::BitWriter;

// A delta that is not coded has to be x.
pub fn inferred_delta(w: &mut BitWriter, delta: i32, x: i32, element: u8) -> Result<(), Refusal>
    ensures { Walked ((inferred_signed element x).enc delta) w.old w.new result }
{
    w.demand(delta == x, element, 0)
}
