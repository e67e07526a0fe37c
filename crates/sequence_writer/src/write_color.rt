// 5.5.2 color_config, written.
ghost use Rattle.std.specs.Prelude.{◌≡◌};
ghost use Rattle.writer.specs.Walked.{Walked};
ghost use Rattle.sequence.specs.Fields.{color_description_of, sampling_of, planes_of};
ghost use Rattle.sequence.specs.Color.{color_values, color_description, srgb, sampling, fixed_sampling, mono_planes, srgb_planes, other_planes, planes, color_rest, color_config};

use crate::optional::*;
use bits::answer::*;
use bits::element::*;
use sequence::record::*;
use writer::BitWriter;

fn color_values(w: &mut BitWriter, present: bool, color: ColorConfig) -> Result<(), Refusal>
    ensures { Walked ((color_values present).enc (color.color_primaries, (color.transfer_characteristics, color.matrix_coefficients))) w.old w.new result }
{
    let transfer = color.transfer_characteristics;
    let matrix = color.matrix_coefficients;
    f_if(w, present, 8, color.color_primaries, 2, COLOR_PRIMARIES, 0)?;
    f_if(w, present, 8, transfer, 2, TRANSFER_CHARACTERISTICS, 0)?;
    f_if(w, present, 8, matrix, 2, MATRIX_COEFFICIENTS, 0)
}

fn color_description(w: &mut BitWriter, color: ColorConfig) -> Result<(), Refusal>
    ensures { Walked (color_description.enc (color_description_of color)) w.old w.new result }
{
    w.flag(color.color_description_present_flag)?;
    color_values(w, color.color_description_present_flag, color)
}

fn srgb(color: ColorConfig) -> bool
    ensures { result ≡ srgb (color_description_of color) }
{
    color.color_primaries == 1
        && color.transfer_characteristics == 13
        && color.matrix_coefficients == 0
}

fn sampling(
    w: &mut BitWriter,
    profile: u32,
    twelve: bool,
    color: ColorConfig,
) -> Result<(), Refusal>
    ensures { Walked ((sampling profile twelve).enc (sampling_of color)) w.old w.new result }
{
    let x = color.subsampling_x;
    let y = color.subsampling_y;
    let position = color.chroma_sample_position;
    flag_if(w, twelve, x, profile != 1, SUBSAMPLING_X, 0)?;
    flag_if(w, twelve && x, y, profile == 0, SUBSAMPLING_Y, 0)?;
    f_if(w, x && y, 2, position, 0, CHROMA_SAMPLE_POSITION, 0)
}

fn fixed_sampling(w: &mut BitWriter, x: bool, y: bool, color: ColorConfig) -> Result<(), Refusal>
    ensures { Walked ((fixed_sampling x y).enc (sampling_of color)) w.old w.new result }
{
    w.inferred_flag(color.subsampling_x, x, SUBSAMPLING_X, 0)?;
    w.inferred_flag(color.subsampling_y, y, SUBSAMPLING_Y, 0)?;
    w.demand(color.chroma_sample_position == 0, CHROMA_SAMPLE_POSITION, 0)
}

fn mono_planes(w: &mut BitWriter, color: ColorConfig) -> Result<(), Refusal>
    ensures { Walked (mono_planes.enc (planes_of color)) w.old w.new result }
{
    w.flag(color.color_range)?;
    fixed_sampling(w, true, true, color)?;
    unset(w, color.separate_uv_delta_q, SEPARATE_UV_DELTA_Q)
}

fn srgb_planes(w: &mut BitWriter, color: ColorConfig) -> Result<(), Refusal>
    ensures { Walked (srgb_planes.enc (planes_of color)) w.old w.new result }
{
    w.inferred_flag(color.color_range, true, COLOR_RANGE, 0)?;
    fixed_sampling(w, false, false, color)?;
    w.flag(color.separate_uv_delta_q)
}

fn other_planes(
    w: &mut BitWriter,
    profile: u32,
    twelve: bool,
    color: ColorConfig,
) -> Result<(), Refusal>
    ensures { Walked ((other_planes profile twelve).enc (planes_of color)) w.old w.new result }
{
    w.flag(color.color_range)?;
    sampling(w, profile, twelve, color)?;
    w.flag(color.separate_uv_delta_q)
}

fn planes(w: &mut BitWriter, profile: u32, color: ColorConfig) -> Result<(), Refusal>
    ensures { Walked ((planes profile color.twelve_bit color.mono_chrome (srgb (color_description_of color))).enc (planes_of color)) w.old w.new result }
{
    if color.mono_chrome {
        return mono_planes(w, color);
    }
    if srgb(color) {
        return srgb_planes(w, color);
    }
    other_planes(w, profile, color.twelve_bit, color)
}

fn color_rest(w: &mut BitWriter, profile: u32, color: ColorConfig) -> Result<(), Refusal>
    ensures { Walked ((color_rest profile color.twelve_bit color.mono_chrome).enc (color_description_of color, (planes_of color, color.num_planes))) w.old w.new result }
{
    color_description(w, color)?;
    planes(w, profile, color)?;
    w.demand(
        color.num_planes == plane_count(color.mono_chrome),
        NUM_PLANES,
        0,
    )
}

pub fn color_config(w: &mut BitWriter, profile: u32, color: ColorConfig) -> Result<(), Refusal>
    ensures { Walked ((color_config profile).enc color) w.old w.new result }
{
    let high = color.high_bitdepth;
    w.flag(high)?;
    flag_if(
        w,
        profile == 2 && high,
        color.twelve_bit,
        false,
        TWELVE_BIT,
        0,
    )?;
    flag_if(w, profile != 1, color.mono_chrome, false, MONO_CHROME, 0)?;
    color_rest(w, profile, color)
}
