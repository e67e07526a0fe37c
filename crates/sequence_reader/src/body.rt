// 5.5.1 sequence_header_obu, read.
ghost use Rattle.fill.specs.Fills.{Fills};
ghost use Rattle.reader.specs.Reading.{Said};
ghost use Rattle.sequence.specs.Sequence.{profile, color_and_grain, tools_and_color, body, sequence_header_obu};
ghost use Rattle.sequence_reader.specs.Layouts as row;
ghost use Rattle.sequence_reader.specs.Places as place;

use crate::color::color_config;
use crate::frame::*;
use crate::general::general;
use crate::place;
use crate::tools::*;
use bits::answer::Refusal;
use bits::element::SEQ_PROFILE;
use reader::BitReader;

#[tactic(auto, using(crate::proofs::Steps::profiles))]
fn profile(r: &mut BitReader) -> Result<u32, Refusal>
    ensures { Said profile.dec r.old r.new result }
{
    let v = r.f(3)?;
    if v <= 2 {
        return Ok(v);
    }
    Err(Refusal::Inconsistent(SEQ_PROFILE, 0))
}

#[tactic(auto, using(fill::proofs::Filling::fillings), unfolding(sequence::specs::Sequence::color_and_grain))]
fn color_and_grain(
    r: &mut BitReader,
    profile: u32,
    n: &mut [u32; place::NUMBERS],
) -> Result<(), Refusal>
    ensures { Fills ((row.color_and_grain).from place.color_config) (color_and_grain profile).dec r.old r.new result n.old n.new }
{
    color_config(r, profile, n)?;
    n[place::FILM_GRAIN_PARAMS_PRESENT] = r.flag()? as u32;
    Ok(())
}

#[tactic(auto, using(fill::proofs::Filling::fillings), unfolding(sequence::specs::Sequence::tools_and_color))]
fn tools_and_color(
    r: &mut BitReader,
    profile: u32,
    reduced: bool,
    n: &mut [u32; place::NUMBERS],
) -> Result<(), Refusal>
    ensures { Fills ((row.tools_and_color).from place.tools) (tools_and_color profile reduced).dec r.old r.new result n.old n.new }
{
    block_tools(r, n)?;
    inter_tools(r, reduced, n)?;
    filter_tools(r, n)?;
    color_and_grain(r, profile, n)
}

#[tactic(auto, using(fill::proofs::Filling::fillings), unfolding(sequence::specs::Sequence::body))]
fn body(
    r: &mut BitReader,
    profile: u32,
    reduced: bool,
    n: &mut [u32; place::NUMBERS],
) -> Result<(), Refusal>
    ensures { Fills ((row.body).from place.general) (body profile reduced).dec r.old r.new result n.old n.new }
{
    general(r, reduced, n)?;
    frame_size(r, n)?;
    frame_ids(r, reduced, n)?;
    tools_and_color(r, profile, reduced, n)
}

#[tactic(auto, using(fill::proofs::Filling::fillings), unfolding(sequence::specs::Sequence::sequence_header_obu))]
pub fn sequence_header_obu(r: &mut BitReader, n: &mut [u32; place::NUMBERS]) -> Result<(), Refusal>
    ensures { Fills ((row.sequence).from place.sequence) sequence_header_obu.dec r.old r.new result n.old n.new }
{
    let seq_profile = profile(r)?;
    n[place::SEQ_PROFILE] = seq_profile;
    n[place::STILL_PICTURE] = r.flag()? as u32;
    let reduced = r.flag()?;
    n[place::REDUCED_STILL_PICTURE_HEADER] = reduced as u32;
    body(r, seq_profile, reduced, n)
}
