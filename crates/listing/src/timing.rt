// 5.5.3 timing_info, 5.5.4 decoder_model_info, and the lines of 5.5.1 that they stand in.
use crate::row::Listing;
use sequence_reader::place;
use std::io;

fn timing_info(l: &mut Listing<impl Print>, n: &[u32; place::NUMBERS]) -> io::Result<()> {
    l.f(32, b"num_units_in_display_tick")?;
    l.f(32, b"time_scale")?;
    l.flag(b"equal_picture_interval")?;
    if n[place::EQUAL_PICTURE_INTERVAL] != 0 {
        l.uvlc(b"num_ticks_per_picture_minus_1")?;
    }
    Ok(())
}

fn decoder_model_info(l: &mut Listing<impl Print>) -> io::Result<()> {
    l.f(5, b"buffer_delay_length_minus_1")?;
    l.f(32, b"num_units_in_decoding_tick")?;
    l.f(5, b"buffer_removal_time_length_minus_1")?;
    l.f(5, b"frame_presentation_time_length_minus_1")
}

// Of the full header.
pub fn timing(l: &mut Listing<impl Print>, n: &[u32; place::NUMBERS]) -> io::Result<()> {
    let has_timing = n[place::TIMING_INFO_PRESENT_FLAG] != 0;
    l.flag(b"timing_info_present_flag")?;
    if has_timing {
        timing_info(l, n)?;
    }
    l.flag_if(has_timing, b"decoder_model_info_present_flag", false)?;
    if n[place::DECODER_MODEL_INFO_PRESENT_FLAG] != 0 {
        decoder_model_info(l)?;
    }
    Ok(())
}
