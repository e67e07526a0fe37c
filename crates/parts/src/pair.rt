// Two fields of one width, stored as one.
ghost use Rattle.bits.specs.Walk.{unsigned, ◌⊕◌};
ghost use Rattle.writer.specs.Walked.{Walked};

use bits::answer::*;
use writer::BitWriter;

// The numbers a and b, of the elements x and y with their indexes.
pub fn pair(
    w: &mut BitWriter,
    width: u32,
    a: u32,
    b: u32,
    x: u8,
    i: u8,
    y: u8,
    j: u8,
) -> Result<(), Refusal>
    ensures { Walked (unsigned width a x i ⊕ unsigned width b y j) w.old w.new result }
{
    if width <= 16 {
        let top = 1u32 << width;
        if a < top {
            if b < top {
                return w.f(width * 2, a * top + b, x, i);
            }
        }
    }
    w.f(width, a, x, i)?;
    w.f(width, b, y, j)
}
