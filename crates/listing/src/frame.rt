// The frame's size and its identifiers, of 5.5.1.
use crate::row::Listing;
use sequence_reader::place;
use std::io;

// As many bits as the number says, and one more, at most 32.
pub fn width(bits_minus_1: u32) -> u32 {
    if bits_minus_1 < 32 {
        bits_minus_1 + 1
    } else {
        32
    }
}

pub fn frame_size(l: &mut Listing<impl Print>, n: &[u32; place::NUMBERS]) -> io::Result<()> {
    l.f(4, b"frame_width_bits_minus_1")?;
    l.f(4, b"frame_height_bits_minus_1")?;
    let width_bits = width(n[place::FRAME_WIDTH_BITS_MINUS_1]);
    l.f(width_bits, b"max_frame_width_minus_1")?;
    let height_bits = width(n[place::FRAME_HEIGHT_BITS_MINUS_1]);
    l.f(height_bits, b"max_frame_height_minus_1")
}

pub fn frame_ids(l: &mut Listing<impl Print>, n: &[u32; place::NUMBERS]) -> io::Result<()> {
    let is_reduced = n[place::REDUCED_STILL_PICTURE_HEADER] != 0;
    l.flag_if(!is_reduced, b"frame_id_numbers_present_flag", false)?;
    if n[place::FRAME_ID_NUMBERS_PRESENT_FLAG] != 0 {
        l.f(4, b"delta_frame_id_length_minus_2")?;
        l.f(3, b"additional_frame_id_length_minus_1")?;
    }
    Ok(())
}
