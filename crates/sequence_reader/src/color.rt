// 5.5.2 color_config, read.
ghost use Rattle.std.specs.Prelude.{◌≡◌};
ghost use Rattle.fill.specs.Fills.{Fills, ◌▸◌};
ghost use Rattle.fill.specs.Rows.{word};
ghost use Rattle.reader.specs.Reading.{Said};
ghost use Rattle.sequence.specs.Color.{color_description, srgb, sampling, mono_planes, srgb_planes, other_planes, planes, color_rest, color_config};
ghost use Rattle.sequence_reader.specs.Layouts as row;
ghost use Rattle.sequence_reader.specs.Places as place;
ghost use Rattle.sequence_reader.specs.Tails.{counted_planes};

use crate::optional::*;
use crate::place;
use bits::answer::Refusal;
use reader::BitReader;
use sequence::group::ColorDescription;
use sequence::record::plane_count;

#[tactic(auto, using(crate::proofs::Steps::values), unfolding(sequence::specs::Color::color_description, sequence::specs::Color::color_values))]
fn color_description(r: &mut BitReader) -> Result<ColorDescription, Refusal>
    ensures { Said color_description.dec r.old r.new result }
{
    let present = r.flag()?;
    let color_primaries = f_if(r, present, 8, 2)?;
    let transfer_characteristics = f_if(r, present, 8, 2)?;
    let matrix_coefficients = f_if(r, present, 8, 2)?;
    Ok(ColorDescription {
        color_description_present_flag: present,
        color_primaries,
        transfer_characteristics,
        matrix_coefficients,
    })
}

fn srgb(d: &ColorDescription) -> bool
    ensures { result ≡ srgb d.now }
{
    d.color_primaries == 1 && d.transfer_characteristics == 13 && d.matrix_coefficients == 0
}

#[tactic(auto, using(crate::proofs::Steps::fields), unfolding(sequence::specs::Color::sampling))]
fn sampling(
    r: &mut BitReader,
    profile: u32,
    twelve: bool,
    n: &mut [u32; place::NUMBERS],
) -> Result<(), Refusal>
    ensures { Fills ((row.sampling).from place.sampling) (sampling profile twelve).dec r.old r.new result n.old n.new }
{
    let x = flag_if(r, twelve, profile != 1)?;
    n[place::SUBSAMPLING_X] = x as u32;
    let y = flag_if(r, twelve & x, profile == 0)?;
    n[place::SUBSAMPLING_Y] = y as u32;
    n[place::CHROMA_SAMPLE_POSITION] = f_if(r, x & y, 2, 0)?;
    Ok(())
}

#[tactic(auto, using(crate::proofs::Steps::fields), unfolding(sequence::specs::Color::mono_planes, sequence::specs::Color::fixed_sampling))]
fn mono_planes(r: &mut BitReader, n: &mut [u32; place::NUMBERS]) -> Result<(), Refusal>
    ensures { Fills ((row.planes).from place.planes) mono_planes.dec r.old r.new result n.old n.new }
{
    n[place::COLOR_RANGE] = r.flag()? as u32;
    n[place::SUBSAMPLING_X] = 1;
    n[place::SUBSAMPLING_Y] = 1;
    n[place::CHROMA_SAMPLE_POSITION] = 0;
    n[place::SEPARATE_UV_DELTA_Q] = 0;
    Ok(())
}

#[tactic(auto, using(crate::proofs::Steps::fields), unfolding(sequence::specs::Color::srgb_planes, sequence::specs::Color::fixed_sampling))]
fn srgb_planes(r: &mut BitReader, n: &mut [u32; place::NUMBERS]) -> Result<(), Refusal>
    ensures { Fills ((row.planes).from place.planes) srgb_planes.dec r.old r.new result n.old n.new }
{
    n[place::COLOR_RANGE] = 1;
    n[place::SUBSAMPLING_X] = 0;
    n[place::SUBSAMPLING_Y] = 0;
    n[place::CHROMA_SAMPLE_POSITION] = 0;
    n[place::SEPARATE_UV_DELTA_Q] = r.flag()? as u32;
    Ok(())
}

#[tactic(auto, using(crate::proofs::Steps::fields), unfolding(sequence::specs::Color::other_planes))]
fn other_planes(
    r: &mut BitReader,
    profile: u32,
    twelve: bool,
    n: &mut [u32; place::NUMBERS],
) -> Result<(), Refusal>
    ensures { Fills ((row.planes).from place.planes) (other_planes profile twelve).dec r.old r.new result n.old n.new }
{
    n[place::COLOR_RANGE] = r.flag()? as u32;
    sampling(r, profile, twelve, n)?;
    n[place::SEPARATE_UV_DELTA_Q] = r.flag()? as u32;
    Ok(())
}

#[tactic(auto, using(crate::proofs::Steps::fields), unfolding(sequence::specs::Color::planes))]
fn planes(
    r: &mut BitReader,
    profile: u32,
    twelve: bool,
    mono: bool,
    srgb: bool,
    n: &mut [u32; place::NUMBERS],
) -> Result<(), Refusal>
    ensures { Fills ((row.planes).from place.planes) (planes profile twelve mono srgb).dec r.old r.new result n.old n.new }
{
    if mono {
        return mono_planes(r, n);
    }
    if srgb {
        return srgb_planes(r, n);
    }
    other_planes(r, profile, twelve, n)
}

#[tactic(auto, using(crate::proofs::Steps::fields), unfolding(crate::specs::Tails::counted_planes))]
fn counted_planes(
    r: &mut BitReader,
    profile: u32,
    twelve: bool,
    mono: bool,
    srgb: bool,
    n: &mut [u32; place::NUMBERS],
) -> Result<(), Refusal>
    ensures { Fills ((row.planes).from place.planes ▸ word.from place.num_planes) (counted_planes profile twelve mono srgb).dec r.old r.new result n.old n.new }
{
    planes(r, profile, twelve, mono, srgb, n)?;
    n[place::NUM_PLANES] = plane_count(mono);
    Ok(())
}

#[tactic(auto, using(crate::proofs::Steps::fields), unfolding(sequence::specs::Color::color_rest, crate::specs::Tails::counted_planes))]
fn color_rest(
    r: &mut BitReader,
    profile: u32,
    twelve: bool,
    mono: bool,
    n: &mut [u32; place::NUMBERS],
) -> Result<(), Refusal>
    ensures { Fills ((row.color_description).from place.color_description ▸ (row.planes).from place.planes ▸ word.from place.num_planes) (color_rest profile twelve mono).dec r.old r.new result n.old n.new }
{
    let d = color_description(r)?;
    n[place::COLOR_DESCRIPTION_PRESENT_FLAG] = d.color_description_present_flag as u32;
    n[place::COLOR_PRIMARIES] = d.color_primaries;
    n[place::TRANSFER_CHARACTERISTICS] = d.transfer_characteristics;
    n[place::MATRIX_COEFFICIENTS] = d.matrix_coefficients;
    counted_planes(r, profile, twelve, mono, srgb(&d), n)
}

#[tactic(auto, using(crate::proofs::Steps::fields), unfolding(sequence::specs::Color::color_config))]
pub fn color_config(
    r: &mut BitReader,
    profile: u32,
    n: &mut [u32; place::NUMBERS],
) -> Result<(), Refusal>
    ensures { Fills ((row.color_config).from place.color_config) (color_config profile).dec r.old r.new result n.old n.new }
{
    let high = r.flag()?;
    n[place::HIGH_BITDEPTH] = high as u32;
    let twelve = flag_if(r, (profile == 2) & high, false)?;
    n[place::TWELVE_BIT] = twelve as u32;
    let mono = flag_if(r, profile != 1, false)?;
    n[place::MONO_CHROME] = mono as u32;
    color_rest(r, profile, twelve, mono, n)
}
