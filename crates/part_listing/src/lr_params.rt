// 5.9.20 lr_params.
use crate::answered;
use listing::row::Listing;
use restoration_numbers::place;
use restoration_reader::read::read_lr_numbers;
use std::io;

fn restoration_off(l: &Listing<impl Print>) -> io::Result<()> {
    l.inferred_at(b"FrameRestorationType", 0, 0)?;
    l.inferred_at(b"FrameRestorationType", 1, 0)?;
    l.inferred_at(b"FrameRestorationType", 2, 0)?;
    l.inferred(b"UsesLr", 0)
}

fn kinds(l: &mut Listing<impl Print>, planes: i32) -> io::Result<()> {
    l.f_at(2, b"lr_type", 0)?;
    if planes != 1 {
        l.f_at(2, b"lr_type", 1)?;
        l.f_at(2, b"lr_type", 2)?;
    }
    Ok(())
}

// The shift as it is taken, where it is not as its bit says.
fn unit_shift(l: &mut Listing<impl Print>, is_large: bool, shift: i32) -> io::Result<()> {
    l.flag(b"lr_unit_shift")?;
    if is_large {
        return l.inferred(b"lr_unit_shift", shift);
    }
    if shift == 0 {
        return Ok(());
    }
    l.flag(b"lr_unit_extra_shift")?;
    if shift != 1 {
        l.inferred(b"lr_unit_shift", shift)?;
    }
    Ok(())
}

fn shifts(l: &mut Listing<impl Print>, n: &[i32; 14]) -> io::Result<()> {
    let is_large = n[place::USE_128X128_SUPERBLOCK] != 0;
    unit_shift(l, is_large, n[place::LR_UNIT_SHIFT])?;
    let is_coded = n[place::SUBSAMPLING_X] != 0
        && n[place::SUBSAMPLING_Y] != 0
        && n[place::USES_CHROMA_LR] != 0;
    l.flag_if(is_coded, b"lr_uv_shift", false)
}

fn restoration_on(l: &mut Listing<impl Print>, n: &[i32; 14]) -> io::Result<()> {
    kinds(l, n[place::PLANES])?;
    l.inferred(b"UsesLr", n[place::USES_LR])?;
    l.inferred(b"usesChromaLr", n[place::USES_CHROMA_LR])?;
    if n[place::USES_LR] != 0 {
        shifts(l, n)?;
    }
    Ok(())
}

fn lr_params(l: &mut Listing<impl Print>, n: &[i32; 14]) -> io::Result<()> {
    if n[place::ALL_LOSSLESS] != 0
        || n[place::ALLOW_INTRABC] != 0
        || n[place::ENABLE_RESTORATION] == 0
    {
        restoration_off(l)
    } else {
        restoration_on(l, n)
    }
}

// The part from the bit `place` of `input` on, by the context that stands in the numbers.
pub fn list(rt: &impl Print, input: &[u8], place: u32, n: &mut [i32; 14]) -> io::Result<()> {
    let answer = read_lr_numbers(input, place, n);
    answered(rt, input, place, answer, |l| lr_params(l, n))
}
