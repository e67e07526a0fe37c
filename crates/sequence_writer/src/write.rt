// 5.5.1 sequence_header_obu, written, and the OBU that holds it.
ghost use Rattle.std.specs.Prelude.{◌≡◌, ◌++◌, ◌+◌, ◌<◌, ◌≤◌, length};
ghost use Rattle.bits.specs.Walk.{◌⊕◌};
ghost use Rattle.writer.specs.Walked.{Walked};
ghost use Rattle.sequence.specs.Fields.{general_out, color_and_grain_out, tools_and_color_out, body_out, sequence_out};
ghost use Rattle.sequence.specs.Timing.{decoder_model_info_if};
ghost use Rattle.sequence.specs.Sequence.{profile, full_general, reduced_general, general, color_and_grain, tools_and_color, body, sequence_header_obu, sequence_header};
ghost use Rattle.obu.specs.Framing.{bit_count, trailing_bits};
ghost use Rattle.obu.specs.Header.{obu_header};
ghost use Rattle.obu.specs.Delimiter.{octets};
ghost use Rattle.obu.specs.Writer.{Writes};

use crate::write_color::color_config;
use crate::write_frame::*;
use crate::write_points::*;
use crate::write_timing::*;
use crate::write_tools::*;
use bits::answer::*;
use bits::element::*;
use obu::answer::verdict;
use obu::header::ObuHeader;
use obu::write::*;
use sequence::record::*;
use writer::BitWriter;

// The longest payload and its trailing bits, in whole words of eight bytes.
const PAYLOAD_ROOM: usize = (SEQUENCE_HEADER_OBU_MAX_BITS + 64) / 64 * 8;

fn profile(w: &mut BitWriter, v: u32) -> Result<(), Refusal>
    ensures { Walked (profile.enc v) w.old w.new result }
{
    w.f(3, v, SEQ_PROFILE, 0)?;
    w.demand(v <= 2, SEQ_PROFILE, 0)
}

// The width of the buffer delays, once the timing is written: where a decoder model is coded, it says it.
fn delay_width(has_model: bool, d: DecoderModelInfo) -> u32
    requires { ((decoder_model_info_if has_model).coded d).buffer_delay_length_minus_1 < 32 }
    ensures { result ≡ ((decoder_model_info_if has_model).coded d).buffer_delay_length_minus_1 + 1 }
{
    if has_model {
        return d.buffer_delay_length_minus_1 + 1;
    }
    1
}

fn full_general(w: &mut BitWriter, h: SequenceHeaderObu) -> Result<(), Refusal>
    ensures { Walked (full_general.enc (general_out h)) w.old w.new result }
{
    timing(w, h)?;
    let has_model = h.decoder_model_info_present_flag;
    let width = delay_width(has_model, h.decoder_model_info);
    points(w, has_model, width, h)
}

fn reduced_general(w: &mut BitWriter, h: SequenceHeaderObu) -> Result<(), Refusal>
    ensures { Walked (reduced_general.enc (general_out h)) w.old w.new result }
{
    reduced_timing(w, h)?;
    reduced_points(w, h)
}

fn general(w: &mut BitWriter, reduced: bool, h: SequenceHeaderObu) -> Result<(), Refusal>
    ensures { Walked ((general reduced).enc (general_out h)) w.old w.new result }
{
    if reduced {
        return reduced_general(w, h);
    }
    full_general(w, h)
}

fn color_and_grain(w: &mut BitWriter, profile: u32, h: SequenceHeaderObu) -> Result<(), Refusal>
    ensures { Walked ((color_and_grain profile).enc (color_and_grain_out h)) w.old w.new result }
{
    color_config(w, profile, h.color_config)?;
    w.flag(h.film_grain_params_present)
}

fn tools_and_color(
    w: &mut BitWriter,
    profile: u32,
    reduced: bool,
    h: SequenceHeaderObu,
) -> Result<(), Refusal>
    ensures { Walked ((tools_and_color profile reduced).enc (tools_and_color_out h)) w.old w.new result }
{
    block_tools(w, h)?;
    inter_tools(w, reduced, h)?;
    filter_tools(w, h)?;
    color_and_grain(w, profile, h)
}

fn body(w: &mut BitWriter, profile: u32, reduced: bool, h: SequenceHeaderObu) -> Result<(), Refusal>
    ensures { Walked ((body profile reduced).enc (body_out h)) w.old w.new result }
{
    general(w, reduced, h)?;
    frame_size(w, h)?;
    frame_ids(w, reduced, h)?;
    tools_and_color(w, profile, reduced, h)
}

pub fn sequence_header_obu(w: &mut BitWriter, h: SequenceHeaderObu) -> Result<(), Refusal>
    ensures { Walked (sequence_header_obu.enc (sequence_out h)) w.old w.new result }
{
    profile(w, h.seq_profile)?;
    w.flag(h.still_picture)?;
    w.flag(h.reduced_still_picture_header)?;
    body(w, h.seq_profile, h.reduced_still_picture_header, h)
}

// Two byte strings, one behind the other, written at the start of `out`.
fn write_strings(first: &[u8], second: &[u8], out: &mut [u8]) -> Result<u32, Refusal>
    requires { length first.now + length second.now ≤ 65536 }
    ensures { Writes (octets (first.now ++ second.now)) out.old result out.new }
{
    let length = first.len() + second.len();
    let count = verdict(Ok(()), length * 8, out.len())?;
    bits::slice::copy(first, out);
    bits::slice::copy(second, &mut out[first.len()..]);
    Ok(count)
}

// The header. (It is copied field by field: lent out of the record, it would keep the compiler from taking the record apart.)
fn header(w: &mut BitWriter, h: ObuHeader) -> Result<(), Refusal>
    ensures { Walked ((obu_header 1).enc h) w.old w.new result }
{
    let copy = ObuHeader {
        obu_type: h.obu_type,
        ..h
    };
    obu_header(w, copy, 1)
}

// The payload and its trailing bits, from the start of a slice.
fn padded_payload(w: &mut BitWriter, h: SequenceHeaderObu) -> Result<(), Refusal>
    requires { w.old.at ≡ 0 }
    ensures { Walked (sequence_header_obu.enc (sequence_out h) ⊕ trailing_bits (bit_count (sequence_header_obu.enc (sequence_out h)))) w.old w.new result }
{
    sequence_header_obu(w, h)?;
    trailing_bits(w, w.at)
}

// The sequence header OBU, written at the start of `out`. Each part is walked once, into an array that holds the longest.
pub fn write_sequence_header(record: SequenceHeaderObu, out: &mut [u8]) -> Result<u32, Refusal>
    ensures { Writes (sequence_header.enc «record») out.old result out.new }
{
    if 65536 < out.len() {
        return Err(Refusal::Long);
    }
    let mut head_bytes = [0; 10];
    let mut head = BitWriter {
        out: &mut head_bytes,
        at: 0,
    };
    header(&mut head, record.obu_header)?;
    let mut payload_bytes = [0; PAYLOAD_ROOM];
    let mut payload = BitWriter {
        out: &mut payload_bytes,
        at: 0,
    };
    padded_payload(&mut payload, record)?;
    let second = payload.at / 8;
    let sized = record.obu_header.has_size_field;
    obu_size(&mut head, sized, capped(second))?;
    let first = head.at / 8;
    write_strings(&head_bytes[..first], &payload_bytes[..second], out)
}
