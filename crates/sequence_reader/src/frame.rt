// The frame's size and its identifiers, of 5.5.1, read.
ghost use Rattle.std.specs.Prelude.{◌+◌, ◌≤◌};
ghost use Rattle.fill.specs.Fills.{Fills};
ghost use Rattle.fill.specs.Rows.{word, ◌&◌};
ghost use Rattle.sequence.specs.Frame.{max_frame_size, frame_size, frame_ids};
ghost use Rattle.sequence_reader.specs.Layouts as row;
ghost use Rattle.sequence_reader.specs.Places as place;

use crate::optional::flag_if;
use crate::place;
use bits::answer::Refusal;
use reader::BitReader;

#[tactic(auto, using(fill::proofs::Filling::fillings), unfolding(sequence::specs::Frame::max_frame_size))]
fn max_frame_size(
    r: &mut BitReader,
    width_bits: u32,
    height_bits: u32,
    n: &mut [u32; place::NUMBERS],
) -> Result<(), Refusal>
    requires { (width_bits + 1 ≤ 32) × (height_bits + 1 ≤ 32) }
    ensures { Fills ((word & word).from place.max_frame_size) (max_frame_size width_bits height_bits).dec r.old r.new result n.old n.new }
{
    n[place::MAX_FRAME_WIDTH_MINUS_1] = r.f(width_bits + 1)?;
    n[place::MAX_FRAME_HEIGHT_MINUS_1] = r.f(height_bits + 1)?;
    Ok(())
}

#[tactic(auto, using(fill::proofs::Filling::fillings), unfolding(sequence::specs::Frame::frame_size, sequence::specs::Frame::frame_size_fields))]
pub fn frame_size(r: &mut BitReader, n: &mut [u32; place::NUMBERS]) -> Result<(), Refusal>
    ensures { Fills ((row.frame_size).from place.frame_size) frame_size.dec r.old r.new result n.old n.new }
{
    let width_bits = r.f(4)?;
    n[place::FRAME_WIDTH_BITS_MINUS_1] = width_bits;
    let height_bits = r.f(4)?;
    n[place::FRAME_HEIGHT_BITS_MINUS_1] = height_bits;
    max_frame_size(r, width_bits, height_bits, n)
}

#[tactic(auto, using(crate::proofs::Steps::fields), unfolding(sequence::specs::Frame::frame_ids))]
pub fn frame_ids(
    r: &mut BitReader,
    reduced: bool,
    n: &mut [u32; place::NUMBERS],
) -> Result<(), Refusal>
    ensures { Fills ((row.frame_ids).from place.frame_ids) (frame_ids reduced).dec r.old r.new result n.old n.new }
{
    let present = flag_if(r, !reduced, false)?;
    n[place::FRAME_ID_NUMBERS_PRESENT_FLAG] = present as u32;
    if !present {
        n[place::DELTA_FRAME_ID_LENGTH_MINUS_2] = 0;
        n[place::ADDITIONAL_FRAME_ID_LENGTH_MINUS_1] = 0;
        return Ok(());
    }
    n[place::DELTA_FRAME_ID_LENGTH_MINUS_2] = r.f(4)?;
    n[place::ADDITIONAL_FRAME_ID_LENGTH_MINUS_1] = r.f(3)?;
    Ok(())
}
