// 5.5.5 operating_parameters_info, and the operating points of 5.5.1, written.
ghost use Rattle.std.specs.Prelude.{◌≤◌};
ghost use Rattle.writer.specs.Walked.{Walked};
ghost use Rattle.sequence.specs.Fields.{operating_parameters_info_of, point_model_of, point_delay_of, point_rest_out, points_of};
ghost use Rattle.sequence.specs.Points.{operating_parameters_info, point_model, point_delay, point_rest, operating_point, operating_points, points, reduced_delay, reduced_point_rest, reduced_point, reduced_points};

use crate::optional::*;
use bits::answer::*;
use bits::element::*;
use sequence::group::PointForm;
use sequence::record::*;
use writer::BitWriter;

fn operating_parameters_info(
    w: &mut BitWriter,
    width: u32,
    p: OperatingPoint,
    i: u8,
) -> Result<(), Refusal>
    ensures { Walked ((operating_parameters_info width i).enc (operating_parameters_info_of p)) w.old w.new result }
{
    w.f(width, p.decoder_buffer_delay, DECODER_BUFFER_DELAY, i)?;
    w.f(width, p.encoder_buffer_delay, ENCODER_BUFFER_DELAY, i)?;
    w.flag(p.low_delay_mode_flag)
}

fn point_model(
    w: &mut BitWriter,
    has_model: bool,
    width: u32,
    p: OperatingPoint,
    i: u8,
) -> Result<(), Refusal>
    ensures { Walked ((point_model has_model width i).enc (point_model_of p)) w.old w.new result }
{
    let present = p.decoder_model_present_for_this_op;
    let element = DECODER_MODEL_PRESENT_FOR_THIS_OP;
    flag_if(w, has_model, present, false, element, i)?;
    if present {
        return operating_parameters_info(w, width, p, i);
    }
    Ok(())
}

fn point_delay(w: &mut BitWriter, has_delay: bool, p: OperatingPoint, i: u8) -> Result<(), Refusal>
    ensures { Walked ((point_delay has_delay i).enc (point_delay_of p)) w.old w.new result }
{
    if !has_delay {
        return Ok(());
    }
    let present = p.initial_display_delay_present_for_this_op;
    let minus_1 = p.initial_display_delay_minus_1;
    w.flag(present)?;
    if present {
        return w.f(4, minus_1, INITIAL_DISPLAY_DELAY_MINUS_1, i);
    }
    Ok(())
}

fn point_rest(w: &mut BitWriter, form: PointForm, p: OperatingPoint, i: u8) -> Result<(), Refusal>
    ensures { Walked ((point_rest p.seq_level_idx form.has_model form.width form.has_delay i).enc (point_rest_out p)) w.old w.new result }
{
    f_if(w, 7 < p.seq_level_idx, 1, p.seq_tier, 0, SEQ_TIER, i)?;
    point_model(w, form.has_model, form.width, p, i)?;
    point_delay(w, form.has_delay, p, i)
}

fn operating_point(
    w: &mut BitWriter,
    form: PointForm,
    p: OperatingPoint,
    i: u8,
) -> Result<(), Refusal>
    ensures { Walked ((operating_point form.has_model form.width form.has_delay i).enc p) w.old w.new result }
{
    w.f(12, p.idc, OPERATING_POINT_IDC, i)?;
    w.f(5, p.seq_level_idx, SEQ_LEVEL_IDX, i)?;
    point_rest(w, form, p, i)
}

fn operating_points(
    w: &mut BitWriter,
    form: PointForm,
    count: u32,
    points: [OperatingPoint; 32],
) -> Result<(), Refusal>
    requires { count ≤ 32 }
    ensures { Walked ((operating_points form.has_model form.width form.has_delay count).enc points) w.old w.new result }
{
    for i in 0..count as u8 {
        operating_point(w, form, points[i as usize], i)?;
    }
    Ok(())
}

pub fn points(
    w: &mut BitWriter,
    has_model: bool,
    width: u32,
    h: SequenceHeaderObu,
) -> Result<(), Refusal>
    ensures { Walked ((points has_model width).enc (points_of h)) w.old w.new result }
{
    let form = PointForm {
        has_model,
        width,
        has_delay: h.initial_display_delay_present_flag,
    };
    let minus_1 = h.operating_points_cnt_minus_1;
    w.flag(form.has_delay)?;
    w.demand(minus_1 <= 31, OPERATING_POINTS_CNT_MINUS_1, 0)?;
    w.f(5, minus_1, OPERATING_POINTS_CNT_MINUS_1, 0)?;
    operating_points(w, form, minus_1 + 1, h.operating_points)
}

fn reduced_delay(w: &mut BitWriter, p: OperatingPoint) -> Result<(), Refusal>
    ensures { Walked (reduced_delay.enc (point_delay_of p)) w.old w.new result }
{
    let present = p.initial_display_delay_present_for_this_op;
    unset(w, present, INITIAL_DISPLAY_DELAY_PRESENT_FOR_THIS_OP)
}

fn reduced_point_rest(w: &mut BitWriter, p: OperatingPoint) -> Result<(), Refusal>
    ensures { Walked (reduced_point_rest.enc (point_rest_out p)) w.old w.new result }
{
    let present = p.decoder_model_present_for_this_op;
    unset(w, present, DECODER_MODEL_PRESENT_FOR_THIS_OP)?;
    reduced_delay(w, p)
}

fn reduced_point(w: &mut BitWriter, p: OperatingPoint) -> Result<(), Refusal>
    ensures { Walked (reduced_point.enc p) w.old w.new result }
{
    w.demand(p.idc == 0, OPERATING_POINT_IDC, 0)?;
    w.f(5, p.seq_level_idx, SEQ_LEVEL_IDX, 0)?;
    reduced_point_rest(w, p)
}

pub fn reduced_points(w: &mut BitWriter, h: SequenceHeaderObu) -> Result<(), Refusal>
    ensures { Walked (reduced_points.enc (points_of h)) w.old w.new result }
{
    let has_delay = h.initial_display_delay_present_flag;
    let minus_1 = h.operating_points_cnt_minus_1;
    unset(w, has_delay, INITIAL_DISPLAY_DELAY_PRESENT_FLAG)?;
    w.demand(minus_1 == 0, OPERATING_POINTS_CNT_MINUS_1, 0)?;
    reduced_point(w, h.operating_points[0])
}
