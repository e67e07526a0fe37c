// 5.5.3 timing_info, 5.5.4 decoder_model_info, and 5.5.1 up to the operating points, read.
ghost use Rattle.fill.specs.Fills.{Fills, ◌▸◌};
ghost use Rattle.fill.specs.Rows.{flag};
ghost use Rattle.reader.specs.Reading.{Said};
ghost use Rattle.sequence.specs.Timing.{ticks_per_picture, timing_info, timing_info_if};
ghost use Rattle.sequence.specs.Sequence.{full_general, general};
ghost use Rattle.sequence_reader.specs.Layouts as row;
ghost use Rattle.sequence_reader.specs.Places as place;
ghost use Rattle.sequence_reader.specs.Tails.{model_if, model_points, with_model, model_rest, model_rest_row};

use crate::optional::flag_if;
use crate::place;
use crate::points::*;
use bits::answer::Refusal;
use bits::element::NUM_TICKS_PER_PICTURE_MINUS_1;
use reader::BitReader;
use sequence::group::PointForm;

#[tactic(auto, using(reader::proofs::Reading::readings), unfolding(sequence::specs::Timing::ticks_per_picture))]
fn ticks_per_picture(r: &mut BitReader, equal: bool) -> Result<u32, Refusal>
    ensures { Said (ticks_per_picture equal).dec r.old r.new result }
{
    if equal {
        return r.uvlc(NUM_TICKS_PER_PICTURE_MINUS_1, 0);
    }
    Ok(0)
}

#[tactic(auto, using(crate::proofs::Steps::fields), unfolding(sequence::specs::Timing::timing_info))]
fn timing_info(r: &mut BitReader, n: &mut [u32; place::NUMBERS]) -> Result<(), Refusal>
    ensures { Fills ((row.timing_info).from place.timing_info) timing_info.dec r.old r.new result n.old n.new }
{
    n[place::NUM_UNITS_IN_DISPLAY_TICK] = r.f(32)?;
    n[place::TIME_SCALE] = r.f(32)?;
    let equal = r.flag()?;
    n[place::EQUAL_PICTURE_INTERVAL] = equal as u32;
    n[place::NUM_TICKS_PER_PICTURE_MINUS_1] = ticks_per_picture(r, equal)?;
    Ok(())
}

#[tactic(auto, using(crate::proofs::Beginning::beginnings), unfolding(sequence::specs::Timing::timing_info_if))]
fn timing_info_if(
    r: &mut BitReader,
    present: bool,
    n: &mut [u32; place::NUMBERS],
) -> Result<(), Refusal>
    ensures { Fills ((row.timing_info).from place.timing_info) (timing_info_if present).dec r.old r.new result n.old n.new }
{
    if present {
        return timing_info(r, n);
    }
    n[place::NUM_UNITS_IN_DISPLAY_TICK] = 0;
    n[place::TIME_SCALE] = 0;
    n[place::EQUAL_PICTURE_INTERVAL] = 0;
    n[place::NUM_TICKS_PER_PICTURE_MINUS_1] = 0;
    Ok(())
}

// The decoder model behind its first field.
#[tactic(auto, using(fill::proofs::Filling::fillings), unfolding(crate::specs::Tails::model_rest))]
fn model_rest(r: &mut BitReader, n: &mut [u32; place::NUMBERS]) -> Result<(), Refusal>
    ensures { Fills (model_rest_row.from place.model_rest) model_rest.dec r.old r.new result n.old n.new }
{
    n[place::NUM_UNITS_IN_DECODING_TICK] = r.f(32)?;
    n[place::BUFFER_REMOVAL_TIME_LENGTH_MINUS_1] = r.f(5)?;
    n[place::FRAME_PRESENTATION_TIME_LENGTH_MINUS_1] = r.f(5)?;
    Ok(())
}

// The decoder model, and the points, whose buffer delays are as wide as it says.
#[tactic(auto, using(crate::proofs::Beginning::beginnings), unfolding(crate::specs::Tails::with_model, crate::specs::Tails::model_rest, sequence::specs::Timing::decoder_model_info))]
fn with_model(r: &mut BitReader, n: &mut [u32; place::NUMBERS]) -> Result<(), Refusal>
    ensures { Fills ((row.decoder_model_info).from place.decoder_model_info ▸ (row.points).from place.points) with_model.dec r.old r.new result n.old n.new }
{
    let length_minus_1 = r.f(5)?;
    n[place::BUFFER_DELAY_LENGTH_MINUS_1] = length_minus_1;
    model_rest(r, n)?;
    points(r, true, length_minus_1 + 1, n)
}

#[tactic(auto, using(crate::proofs::Beginning::beginnings))]
fn model_points(
    r: &mut BitReader,
    has_model: bool,
    n: &mut [u32; place::NUMBERS],
) -> Result<(), Refusal>
    ensures { Fills ((row.decoder_model_info).from place.decoder_model_info ▸ (row.points).from place.points) (model_points has_model).dec r.old r.new result n.old n.new }
{
    if has_model {
        return with_model(r, n);
    }
    n[place::BUFFER_DELAY_LENGTH_MINUS_1] = 0;
    n[place::NUM_UNITS_IN_DECODING_TICK] = 0;
    n[place::BUFFER_REMOVAL_TIME_LENGTH_MINUS_1] = 0;
    n[place::FRAME_PRESENTATION_TIME_LENGTH_MINUS_1] = 0;
    points(r, false, 1, n)
}

// From decoder_model_info_present_flag on.
#[tactic(auto, using(crate::proofs::Steps::fields), unfolding(crate::specs::Tails::model_if))]
fn model_if(r: &mut BitReader, timed: bool, n: &mut [u32; place::NUMBERS]) -> Result<(), Refusal>
    ensures { Fills (flag.from place.model_present ▸ (row.decoder_model_info).from place.decoder_model_info ▸ (row.points).from place.points) (model_if timed).dec r.old r.new result n.old n.new }
{
    let has_model = flag_if(r, timed, false)?;
    n[place::DECODER_MODEL_INFO_PRESENT_FLAG] = has_model as u32;
    model_points(r, has_model, n)
}

#[tactic(auto, using(crate::proofs::Steps::fields), unfolding(sequence::specs::Sequence::full_general, sequence::specs::Timing::timing, crate::specs::Tails::model_if, crate::specs::Tails::model_points))]
fn full_general(r: &mut BitReader, n: &mut [u32; place::NUMBERS]) -> Result<(), Refusal>
    ensures { Fills ((row.general).from place.general) full_general.dec r.old r.new result n.old n.new }
{
    let timed = r.flag()?;
    n[place::TIMING_INFO_PRESENT_FLAG] = timed as u32;
    timing_info_if(r, timed, n)?;
    model_if(r, timed, n)
}

// With the reduced header there is one point, and nothing before it.
#[tactic(auto, using(crate::proofs::Beginning::beginnings), unfolding(sequence::specs::Sequence::general))]
pub fn general(
    r: &mut BitReader,
    reduced: bool,
    n: &mut [u32; place::NUMBERS],
) -> Result<(), Refusal>
    ensures { Fills ((row.general).from place.general) (general reduced).dec r.old r.new result n.old n.new }
{
    if !reduced {
        return full_general(r, n);
    }
    n[place::TIMING_INFO_PRESENT_FLAG] = 0;
    n[place::NUM_UNITS_IN_DISPLAY_TICK] = 0;
    n[place::TIME_SCALE] = 0;
    n[place::EQUAL_PICTURE_INTERVAL] = 0;
    n[place::NUM_TICKS_PER_PICTURE_MINUS_1] = 0;
    n[place::DECODER_MODEL_INFO_PRESENT_FLAG] = 0;
    n[place::BUFFER_DELAY_LENGTH_MINUS_1] = 0;
    n[place::NUM_UNITS_IN_DECODING_TICK] = 0;
    n[place::BUFFER_REMOVAL_TIME_LENGTH_MINUS_1] = 0;
    n[place::FRAME_PRESENTATION_TIME_LENGTH_MINUS_1] = 0;
    n[place::INITIAL_DISPLAY_DELAY_PRESENT_FLAG] = 0;
    n[place::OPERATING_POINTS_CNT_MINUS_1] = 0;
    let none = PointForm {
        has_model: false,
        width: 1,
        has_delay: false,
    };
    operating_points(r, true, none, 1, n)
}
