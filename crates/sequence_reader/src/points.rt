// 5.5.5 operating_parameters_info, and the operating points of 5.5.1, read.
ghost use Rattle.std.specs.Prelude.{min, ◌+◌, ◌≤◌};
ghost use Rattle.fill.specs.Fills.{Fills};
ghost use Rattle.sequence.specs.Points.{operating_parameters_info, point_model, point_delay, point_rest, operating_point, reduced_point, points};
ghost use Rattle.sequence_reader.specs.Layouts as row;
ghost use Rattle.sequence_reader.specs.Places as place;
ghost use Rattle.sequence_reader.specs.Tails.{any_point, point_list};

use crate::optional::*;
use crate::place;
use bits::answer::Refusal;
use reader::BitReader;
use sequence::group::PointForm;

// A width over 32 counts as 32, here and below; the point's numbers begin at `at`.
#[tactic(auto, using(crate::proofs::Pointing::pointings), unfolding(sequence::specs::Points::operating_parameters_info))]
fn operating_parameters_info(
    r: &mut BitReader,
    width: u32,
    at: usize,
    n: &mut [u32; place::NUMBERS],
) -> Result<(), Refusal>
    requires { at + 9 ≤ place.numbers }
    ensures { Fills (row.operating_parameters_info at) (operating_parameters_info (min width 32) 0).dec r.old r.new result n.old n.new }
{
    n[at + place::DECODER_BUFFER_DELAY] = r.f(width)?;
    n[at + place::ENCODER_BUFFER_DELAY] = r.f(width)?;
    n[at + place::LOW_DELAY_MODE_FLAG] = r.flag()? as u32;
    Ok(())
}

#[tactic(auto, using(crate::proofs::Pointing::pointings), unfolding(sequence::specs::Points::point_model))]
fn point_model(
    r: &mut BitReader,
    has_model: bool,
    width: u32,
    at: usize,
    n: &mut [u32; place::NUMBERS],
) -> Result<(), Refusal>
    requires { at + 9 ≤ place.numbers }
    ensures { Fills (row.point_model at) (point_model has_model (min width 32) 0).dec r.old r.new result n.old n.new }
{
    let present = flag_if(r, has_model, false)?;
    n[at + place::DECODER_MODEL_PRESENT_FOR_THIS_OP] = present as u32;
    if present {
        return operating_parameters_info(r, width, at, n);
    }
    n[at + place::DECODER_BUFFER_DELAY] = 0;
    n[at + place::ENCODER_BUFFER_DELAY] = 0;
    n[at + place::LOW_DELAY_MODE_FLAG] = 0;
    Ok(())
}

#[tactic(auto, using(crate::proofs::Pointing::pointings), unfolding(sequence::specs::Points::point_delay))]
fn point_delay(
    r: &mut BitReader,
    has_delay: bool,
    at: usize,
    n: &mut [u32; place::NUMBERS],
) -> Result<(), Refusal>
    requires { at + 9 ≤ place.numbers }
    ensures { Fills (row.point_delay at) (point_delay has_delay 0).dec r.old r.new result n.old n.new }
{
    if !has_delay {
        n[at + place::INITIAL_DISPLAY_DELAY_PRESENT_FOR_THIS_OP] = 0;
        n[at + place::INITIAL_DISPLAY_DELAY_MINUS_1] = 0;
        return Ok(());
    }
    let present = r.flag()?;
    n[at + place::INITIAL_DISPLAY_DELAY_PRESENT_FOR_THIS_OP] = present as u32;
    if present {
        n[at + place::INITIAL_DISPLAY_DELAY_MINUS_1] = r.f(4)?;
        return Ok(());
    }
    n[at + place::INITIAL_DISPLAY_DELAY_MINUS_1] = 0;
    Ok(())
}

#[tactic(auto, using(crate::proofs::Pointing::pointings), unfolding(sequence::specs::Points::point_rest))]
fn point_rest(
    r: &mut BitReader,
    level: u32,
    form: PointForm,
    at: usize,
    n: &mut [u32; place::NUMBERS],
) -> Result<(), Refusal>
    requires { at + 9 ≤ place.numbers }
    ensures { Fills (row.point_rest at) (point_rest level form.has_model (min form.width 32) form.has_delay 0).dec r.old r.new result n.old n.new }
{
    n[at + place::SEQ_TIER] = f_if(r, 7 < level, 1, 0)?;
    point_model(r, form.has_model, form.width, at, n)?;
    point_delay(r, form.has_delay, at, n)
}

#[tactic(auto, using(crate::proofs::Pointing::pointings), unfolding(sequence::specs::Points::operating_point))]
fn operating_point(
    r: &mut BitReader,
    form: PointForm,
    at: usize,
    n: &mut [u32; place::NUMBERS],
) -> Result<(), Refusal>
    requires { at + 9 ≤ place.numbers }
    ensures { Fills (row.operating_point at) (operating_point form.has_model (min form.width 32) form.has_delay 0).dec r.old r.new result n.old n.new }
{
    n[at] = r.f(12)?;
    let level = r.f(5)?;
    n[at + place::SEQ_LEVEL_IDX] = level;
    point_rest(r, level, form, at, n)
}

// With the reduced header only the level is coded.
#[tactic(auto, using(crate::proofs::Pointing::pointings), unfolding(sequence::specs::Points::reduced_point))]
fn reduced_point(r: &mut BitReader, at: usize, n: &mut [u32; place::NUMBERS]) -> Result<(), Refusal>
    requires { at + 9 ≤ place.numbers }
    ensures { Fills (row.operating_point at) reduced_point.dec r.old r.new result n.old n.new }
{
    let level = r.f(5)?;
    n[at] = 0;
    n[at + place::SEQ_LEVEL_IDX] = level;
    n[at + place::SEQ_TIER] = 0;
    n[at + place::DECODER_MODEL_PRESENT_FOR_THIS_OP] = 0;
    n[at + place::DECODER_BUFFER_DELAY] = 0;
    n[at + place::ENCODER_BUFFER_DELAY] = 0;
    n[at + place::LOW_DELAY_MODE_FLAG] = 0;
    n[at + place::INITIAL_DISPLAY_DELAY_PRESENT_FOR_THIS_OP] = 0;
    n[at + place::INITIAL_DISPLAY_DELAY_MINUS_1] = 0;
    Ok(())
}

#[tactic(auto, using(crate::proofs::Pointing::pointings))]
fn any_point(
    r: &mut BitReader,
    reduced: bool,
    form: PointForm,
    at: usize,
    n: &mut [u32; place::NUMBERS],
) -> Result<(), Refusal>
    requires { at + 9 ≤ place.numbers }
    ensures { Fills (row.operating_point at) (any_point reduced form.has_model (min form.width 32) form.has_delay 0).dec r.old r.new result n.old n.new }
{
    if reduced {
        return reduced_point(r, at, n);
    }
    operating_point(r, form, at, n)
}

// The first `count` points.
#[tactic(auto, using(crate::proofs::Pointing::loops))]
pub fn operating_points(
    r: &mut BitReader,
    reduced: bool,
    form: PointForm,
    count: usize,
    n: &mut [u32; place::NUMBERS],
) -> Result<(), Refusal>
    requires { count ≤ 32 }
    ensures { Fills (row.operating_points place.operating_points count) (point_list reduced form.has_model (min form.width 32) form.has_delay count).dec r.old r.new result n.old n.new }
{
    for i in 0..count {
        let at = place::OPERATING_POINTS + place::POINT_NUMBERS * i;
        any_point(r, reduced, form, at, n)?;
    }
    Ok(())
}

// initial_display_delay_present_flag, operating_points_cnt_minus_1, and so many points.
#[tactic(auto, using(crate::proofs::Pointing::pointings), unfolding(sequence::specs::Points::points))]
pub fn points(
    r: &mut BitReader,
    has_model: bool,
    width: u32,
    n: &mut [u32; place::NUMBERS],
) -> Result<(), Refusal>
    ensures { Fills ((row.points).from place.points) (points has_model (min width 32)).dec r.old r.new result n.old n.new }
{
    let has_delay = r.flag()?;
    n[place::INITIAL_DISPLAY_DELAY_PRESENT_FLAG] = has_delay as u32;
    let minus_1 = r.f(5)?;
    n[place::OPERATING_POINTS_CNT_MINUS_1] = minus_1;
    let count = minus_1 as usize + 1;
    let form = PointForm {
        has_model,
        width,
        has_delay,
    };
    operating_points(r, false, form, count, n)
}
