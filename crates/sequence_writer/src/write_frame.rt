// The frame's size and its identifiers, of 5.5.1, written.
ghost use Rattle.std.specs.Prelude.{◌≡◌};
ghost use Rattle.bits.specs.Walk.{demand as demanded};
ghost use Rattle.writer.specs.Walked.{Walked};
ghost use Rattle.bits.specs.declared.answer.Refusal.TheVariants.{Inconsistent};
ghost use Rattle.sequence.specs.Fields.{frame_size_of, frame_size_out, frame_ids_of};
ghost use Rattle.sequence.specs.Frame.{frame_size_fields, bits_hold, frame_size, frame_ids};

use crate::optional::flag_if;
use bits::answer::*;
use bits::element::*;
use sequence::record::SequenceHeaderObu;
use writer::*;

// Whether a size has at most the bits that its bit count minus 1 says.
fn holds(bits_minus_1: u32, size: u32) -> bool
    ensures { result ≡ bits_hold bits_minus_1 size }
{
    31 <= bits_minus_1 || fits(size, bits_minus_1 + 1)
}

fn bits_hold(w: &mut BitWriter, bits_minus_1: u32, size: u32, element: u8) -> Result<(), Refusal>
    ensures { Walked (demanded (bits_hold bits_minus_1 size) (Inconsistent element 0)) w.old w.new result }
{
    w.demand(holds(bits_minus_1, size), element, 0)
}

// The sizes always fit: that their bit counts hold them is checked before.
fn frame_size_fields(w: &mut BitWriter, h: SequenceHeaderObu) -> Result<(), Refusal>
    ensures { Walked (frame_size_fields.enc (frame_size_out (frame_size_of h))) w.old w.new result }
{
    let width_bits = h.frame_width_bits_minus_1;
    let height_bits = h.frame_height_bits_minus_1;
    w.f(4, width_bits, FRAME_WIDTH_BITS_MINUS_1, 0)?;
    w.f(4, height_bits, FRAME_HEIGHT_BITS_MINUS_1, 0)?;
    w.f(width_bits + 1, h.max_frame_width_minus_1, 0, 0)?;
    w.f(height_bits + 1, h.max_frame_height_minus_1, 0, 0)
}

pub fn frame_size(w: &mut BitWriter, h: SequenceHeaderObu) -> Result<(), Refusal>
    ensures { Walked (frame_size.enc (frame_size_of h)) w.old w.new result }
{
    let width = h.max_frame_width_minus_1;
    let height = h.max_frame_height_minus_1;
    let width_bits = h.frame_width_bits_minus_1;
    let height_bits = h.frame_height_bits_minus_1;
    bits_hold(w, width_bits, width, FRAME_WIDTH_BITS_MINUS_1)?;
    bits_hold(w, height_bits, height, FRAME_HEIGHT_BITS_MINUS_1)?;
    frame_size_fields(w, h)
}

pub fn frame_ids(w: &mut BitWriter, reduced: bool, h: SequenceHeaderObu) -> Result<(), Refusal>
    ensures { Walked ((frame_ids reduced).enc (frame_ids_of h)) w.old w.new result }
{
    let present = h.frame_id_numbers_present_flag;
    let delta = h.delta_frame_id_length_minus_2;
    let additional = h.additional_frame_id_length_minus_1;
    let element = FRAME_ID_NUMBERS_PRESENT_FLAG;
    flag_if(w, !reduced, present, false, element, 0)?;
    if present {
        w.f(4, delta, DELTA_FRAME_ID_LENGTH_MINUS_2, 0)?;
        return w.f(3, additional, ADDITIONAL_FRAME_ID_LENGTH_MINUS_1, 0);
    }
    Ok(())
}
