// 5.9.14 segmentation_params. The feature of a segment has the index 8 * segment + feature. Where no features are coded they have no rows.
use crate::answered;
use listing::row::Listing;
use segmentation_numbers::place;
use segmentation_reader::read::read_segmentation_numbers;
use std::io;

// A value with a sign, and the value that is taken, where it was clipped.
fn signed_value(l: &mut Listing<impl Print>, width: u32, data: i32, i: usize) -> io::Result<()> {
    let coded = l.peek().su(width);
    l.su_at(width, b"feature_value", i)?;
    match coded {
        Ok(value) if value != data => l.inferred_at(b"FeatureData", i, data),
        _ => Ok(()),
    }
}

// Only a value with a sign may be beyond its limit.
fn feature_value(l: &mut Listing<impl Print>, data: i32, i: usize) -> io::Result<()> {
    match i % 8 {
        0 => signed_value(l, 9, data, i),
        1..=4 => signed_value(l, 7, data, i),
        5 => l.f_at(3, b"feature_value", i),
        _ => l.f_at(0, b"feature_value", i),
    }
}

fn features(l: &mut Listing<impl Print>, n: &[i32; 133]) -> io::Result<()> {
    for i in 0..64 {
        l.flag_at(b"feature_enabled", i)?;
        if n[place::FEATURE_ENABLED + i] != 0 {
            feature_value(l, n[place::FEATURE_DATA + i], i)?;
        }
    }
    Ok(())
}

fn no_primary_reference(l: &Listing<impl Print>) -> io::Result<()> {
    l.inferred(b"segmentation_update_map", 1)?;
    l.inferred(b"segmentation_temporal_update", 0)?;
    l.inferred(b"segmentation_update_data", 1)
}

fn updates(l: &mut Listing<impl Print>, n: &[i32; 133]) -> io::Result<()> {
    if n[place::PRIMARY_REF_FRAME] == 7 {
        return no_primary_reference(l);
    }
    l.flag(b"segmentation_update_map")?;
    if n[place::SEGMENTATION_UPDATE_MAP] != 0 {
        l.flag(b"segmentation_temporal_update")?;
    }
    l.flag(b"segmentation_update_data")
}

fn segmentation_params(l: &mut Listing<impl Print>, n: &[i32; 133]) -> io::Result<()> {
    l.flag(b"segmentation_enabled")?;
    if n[place::SEGMENTATION_ENABLED] == 0 {
        return Ok(());
    }
    updates(l, n)?;
    if n[place::SEGMENTATION_UPDATE_DATA] != 0 {
        features(l, n)?;
    }
    Ok(())
}

// The part from the bit `place` of `input` on, by the context that stands in the numbers.
pub fn list(rt: &impl Print, input: &[u8], place: u32, n: &mut [i32; 133]) -> io::Result<()> {
    let answer = read_segmentation_numbers(input, place, n);
    answered(rt, input, place, answer, |l| segmentation_params(l, n))
}
