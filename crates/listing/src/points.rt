// The operating points of 5.5.1, and 5.5.5 operating_parameters_info.
use crate::frame::width;
use crate::row::Listing;
use sequence_reader::place;
use std::io;

fn operating_parameters_info(
    l: &mut Listing<impl Print>,
    delay_width: u32,
    i: usize,
) -> io::Result<()> {
    l.f_at(delay_width, b"decoder_buffer_delay", i)?;
    l.f_at(delay_width, b"encoder_buffer_delay", i)?;
    l.flag_at(b"low_delay_mode_flag", i)
}

fn seq_tier(l: &mut Listing<impl Print>, seq_level_idx: u32, i: usize) -> io::Result<()> {
    if 7 < seq_level_idx {
        l.flag_at(b"seq_tier", i)
    } else {
        l.inferred_at(b"seq_tier", i, 0)
    }
}

fn point_model(
    l: &mut Listing<impl Print>,
    n: &[u32; place::NUMBERS],
    point: &[u32; place::POINT_NUMBERS],
    i: usize,
) -> io::Result<()> {
    if n[place::DECODER_MODEL_INFO_PRESENT_FLAG] == 0 {
        return l.inferred_at(b"decoder_model_present_for_this_op", i, 0);
    }
    l.flag_at(b"decoder_model_present_for_this_op", i)?;
    if point[place::DECODER_MODEL_PRESENT_FOR_THIS_OP] != 0 {
        let delay_width = width(n[place::BUFFER_DELAY_LENGTH_MINUS_1]);
        operating_parameters_info(l, delay_width, i)?;
    }
    Ok(())
}

fn point_delay(l: &mut Listing<impl Print>, is_present: bool, i: usize) -> io::Result<()> {
    l.flag_at(b"initial_display_delay_present_for_this_op", i)?;
    if is_present {
        l.f_at(4, b"initial_display_delay_minus_1", i)?;
    }
    Ok(())
}

fn operating_point(
    l: &mut Listing<impl Print>,
    n: &[u32; place::NUMBERS],
    point: &[u32; place::POINT_NUMBERS],
    i: usize,
) -> io::Result<()> {
    l.f_at(12, b"operating_point_idc", i)?;
    l.f_at(5, b"seq_level_idx", i)?;
    seq_tier(l, point[place::SEQ_LEVEL_IDX], i)?;
    point_model(l, n, point, i)?;
    if n[place::INITIAL_DISPLAY_DELAY_PRESENT_FLAG] != 0 {
        let is_present = point[place::INITIAL_DISPLAY_DELAY_PRESENT_FOR_THIS_OP] != 0;
        point_delay(l, is_present, i)?;
    }
    Ok(())
}

// Of the full header.
pub fn points(l: &mut Listing<impl Print>, n: &[u32; place::NUMBERS]) -> io::Result<()> {
    l.flag(b"initial_display_delay_present_flag")?;
    l.f(5, b"operating_points_cnt_minus_1")?;
    let last = n[place::OPERATING_POINTS_CNT_MINUS_1] as usize;
    let all = &n[place::OPERATING_POINTS..place::FRAME_WIDTH_BITS_MINUS_1];
    let (all, _) = all.as_chunks::<{ place::POINT_NUMBERS }>();
    for (i, point) in all.iter().take(last + 1).enumerate() {
        operating_point(l, n, point, i)?;
    }
    Ok(())
}

// With the reduced header only the level of one point is coded.
pub fn reduced_points(l: &mut Listing<impl Print>) -> io::Result<()> {
    l.inferred(b"timing_info_present_flag", 0)?;
    l.inferred(b"decoder_model_info_present_flag", 0)?;
    l.inferred(b"initial_display_delay_present_flag", 0)?;
    l.inferred(b"operating_points_cnt_minus_1", 0)?;
    l.inferred_at(b"operating_point_idc", 0, 0)?;
    l.f_at(5, b"seq_level_idx", 0)?;
    l.inferred_at(b"seq_tier", 0, 0)?;
    l.inferred_at(b"decoder_model_present_for_this_op", 0, 0)?;
    l.inferred_at(b"initial_display_delay_present_for_this_op", 0, 0)
}
