// 5.5.3 timing_info, 5.5.4 decoder_model_info, and the lines of 5.5.1 that they stand in, written.
ghost use Rattle.writer.specs.Walked.{Walked};
ghost use Rattle.sequence.specs.Fields.{timing_of};
ghost use Rattle.sequence.specs.Timing.{ticks_per_picture, timing_info, decoder_model_info, timing_info_if, decoder_model_info_if, timing, reduced_timing};

use crate::optional::*;
use bits::answer::*;
use bits::element::*;
use sequence::record::*;
use writer::BitWriter;

fn ticks_per_picture(w: &mut BitWriter, equal: bool, ticks: u32) -> Result<(), Refusal>
    ensures { Walked ((ticks_per_picture equal).enc ticks) w.old w.new result }
{
    if equal {
        return w.uvlc(ticks, NUM_TICKS_PER_PICTURE_MINUS_1, 0);
    }
    Ok(())
}

fn timing_info(w: &mut BitWriter, t: TimingInfo) -> Result<(), Refusal>
    ensures { Walked (timing_info.enc t) w.old w.new result }
{
    w.f(32, t.num_units_in_display_tick, 0, 0)?;
    w.f(32, t.time_scale, 0, 0)?;
    w.flag(t.equal_picture_interval)?;
    let ticks = t.num_ticks_per_picture_minus_1;
    ticks_per_picture(w, t.equal_picture_interval, ticks)
}

fn decoder_model_info(w: &mut BitWriter, d: DecoderModelInfo) -> Result<(), Refusal>
    ensures { Walked (decoder_model_info.enc d) w.old w.new result }
{
    let delay = d.buffer_delay_length_minus_1;
    let removal = d.buffer_removal_time_length_minus_1;
    let presentation = d.frame_presentation_time_length_minus_1;
    w.f(5, delay, BUFFER_DELAY_LENGTH_MINUS_1, 0)?;
    w.f(32, d.num_units_in_decoding_tick, 0, 0)?;
    w.f(5, removal, BUFFER_REMOVAL_TIME_LENGTH_MINUS_1, 0)?;
    w.f(5, presentation, FRAME_PRESENTATION_TIME_LENGTH_MINUS_1, 0)
}

fn timing_info_if(w: &mut BitWriter, present: bool, t: TimingInfo) -> Result<(), Refusal>
    ensures { Walked ((timing_info_if present).enc t) w.old w.new result }
{
    if present {
        return timing_info(w, t);
    }
    Ok(())
}

fn decoder_model_info_if(
    w: &mut BitWriter,
    present: bool,
    d: DecoderModelInfo,
) -> Result<(), Refusal>
    ensures { Walked ((decoder_model_info_if present).enc d) w.old w.new result }
{
    if present {
        return decoder_model_info(w, d);
    }
    Ok(())
}

pub fn timing(w: &mut BitWriter, h: SequenceHeaderObu) -> Result<(), Refusal>
    ensures { Walked (timing.enc (timing_of h)) w.old w.new result }
{
    let has_timing = h.timing_info_present_flag;
    let has_model = h.decoder_model_info_present_flag;
    let element = DECODER_MODEL_INFO_PRESENT_FLAG;
    w.flag(has_timing)?;
    timing_info_if(w, has_timing, h.timing_info)?;
    flag_if(w, has_timing, has_model, false, element, 0)?;
    decoder_model_info_if(w, has_model, h.decoder_model_info)
}

pub fn reduced_timing(w: &mut BitWriter, h: SequenceHeaderObu) -> Result<(), Refusal>
    ensures { Walked (reduced_timing.enc (timing_of h)) w.old w.new result }
{
    unset(w, h.timing_info_present_flag, REDUCED_STILL_PICTURE_HEADER)
}
