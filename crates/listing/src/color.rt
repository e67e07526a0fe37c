// 5.5.2 color_config.
use crate::row::Listing;
use sequence_reader::place;
use std::io;

fn color_description(l: &mut Listing<impl Print>, is_present: bool) -> io::Result<()> {
    l.flag(b"color_description_present_flag")?;
    l.f_if(is_present, 8, b"color_primaries", 2)?;
    l.f_if(is_present, 8, b"transfer_characteristics", 2)?;
    l.f_if(is_present, 8, b"matrix_coefficients", 2)
}

// Whether the planes are those of sRGB: nothing of their sampling is coded, nor the range.
fn is_srgb(n: &[u32; place::NUMBERS]) -> bool {
    n[place::MONO_CHROME] == 0
        && n[place::COLOR_PRIMARIES] == 1
        && n[place::TRANSFER_CHARACTERISTICS] == 13
        && n[place::MATRIX_COEFFICIENTS] == 0
}

// At twelve bits (profile 2) the sampling is coded, but for one plane and sRGB.
fn samples(
    l: &mut Listing<impl Print>,
    n: &[u32; place::NUMBERS],
    is_free: bool,
) -> io::Result<()> {
    let is_coded = is_free && n[place::TWELVE_BIT] != 0;
    let x = n[place::SUBSAMPLING_X] != 0;
    let y = n[place::SUBSAMPLING_Y] != 0;
    l.flag_if(is_coded, b"subsampling_x", x)?;
    l.flag_if(is_coded && x, b"subsampling_y", y)?;
    l.f_if(is_free && x && y, 2, b"chroma_sample_position", 0)
}

fn planes(l: &mut Listing<impl Print>, n: &[u32; place::NUMBERS]) -> io::Result<()> {
    let is_mono = n[place::MONO_CHROME] != 0;
    let is_srgb = is_srgb(n);
    l.flag_if(!is_srgb, b"color_range", true)?;
    samples(l, n, !is_srgb && !is_mono)?;
    l.flag_if(!is_mono, b"separate_uv_delta_q", false)
}

pub fn color_config(l: &mut Listing<impl Print>, n: &[u32; place::NUMBERS]) -> io::Result<()> {
    let profile = n[place::SEQ_PROFILE];
    let is_high = n[place::HIGH_BITDEPTH] != 0;
    l.flag(b"high_bitdepth")?;
    l.flag_if(profile == 2 && is_high, b"twelve_bit", false)?;
    l.flag_if(profile != 1, b"mono_chrome", false)?;
    color_description(l, n[place::COLOR_DESCRIPTION_PRESENT_FLAG] != 0)?;
    planes(l, n)?;
    l.inferred(b"NumPlanes", n[place::NUM_PLANES] as u64)
}
