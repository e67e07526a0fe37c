// The kinds of three planes, written: one field, where all of them fit.
ghost use Rattle.writer.specs.Walked.{Walked};
ghost use Rattle.restoration.specs.Restoration.{kinds, kinds_out};

use crate::record::LoopRestorationParams;
use bits::answer::*;
use bits::element::FRAME_RESTORATION_TYPE;
use writer::BitWriter;

// Field by field.
fn kinds_apart(w: &mut BitWriter, p: LoopRestorationParams) -> Result<(), Refusal>
    ensures { Walked (kinds.enc (kinds_out p)) w.old w.new result }
{
    w.f(2, p.frame_restoration_type[0], FRAME_RESTORATION_TYPE, 0)?;
    w.f(2, p.frame_restoration_type[1], FRAME_RESTORATION_TYPE, 1)?;
    w.f(2, p.frame_restoration_type[2], FRAME_RESTORATION_TYPE, 2)
}

pub fn kinds(w: &mut BitWriter, p: LoopRestorationParams) -> Result<(), Refusal>
    ensures { Walked (kinds.enc (kinds_out p)) w.old w.new result }
{
    let [y, u, v] = p.frame_restoration_type;
    if y < 4 && u < 4 && v < 4 {
        return w.f(6, y * 16 + (u * 4 + v), FRAME_RESTORATION_TYPE, 0);
    }
    kinds_apart(w, p)
}
