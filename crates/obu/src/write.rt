// 5.3 written: the header, the size, and the trailing bits.
ghost use Rattle.bits.specs.Walk.{unsigned};
ghost use Rattle.writer.specs.Walked.{Walked};
ghost use Rattle.obu.specs.Header.{expected_type, obu_extension_header, extension_of, header_end, end_of, obu_header};
ghost use Rattle.obu.specs.Framing.{obu_size, trailing_bits};

use crate::header::ObuHeader;
use bits::answer::*;
use bits::element::*;
use writer::BitWriter;

// A bit that is always 0.
#[inline(always)]
fn zero(w: &mut BitWriter) -> Result<(), Refusal>
    ensures { Walked (unsigned 1 0 0 0) w.old w.new result }
{
    w.flag(false)
}

// obu_type, which must be t.
#[inline(always)]
fn expected_type(w: &mut BitWriter, obu_type: u32, t: u32) -> Result<(), Refusal>
    ensures { Walked ((expected_type t).enc obu_type) w.old w.new result }
{
    if obu_type == t {
        return w.f(4, obu_type, OBU_TYPE, 0);
    }
    Err(Refusal::Inconsistent(OBU_TYPE, 0))
}

// 5.3.3
#[inline(always)]
fn obu_extension_header(w: &mut BitWriter, h: ObuHeader) -> Result<(), Refusal>
    ensures { Walked (obu_extension_header.enc (extension_of h)) w.old w.new result }
{
    w.f(3, h.temporal_id, TEMPORAL_ID, 0)?;
    w.f(2, h.spatial_id, SPATIAL_ID, 0)?;
    w.f(3, 0, 0, 0)
}

// The header from obu_has_size_field on.
#[inline(always)]
fn header_end(w: &mut BitWriter, h: ObuHeader) -> Result<(), Refusal>
    ensures { Walked ((header_end h.extension_flag).enc (end_of h)) w.old w.new result }
{
    w.flag(h.has_size_field)?;
    zero(w)?;
    if h.extension_flag {
        return obu_extension_header(w, h);
    }
    Ok(())
}

// 5.3.2, of an OBU that is to have the type t.
#[inline(always)]
pub fn obu_header(w: &mut BitWriter, h: ObuHeader, t: u32) -> Result<(), Refusal>
    ensures { Walked ((obu_header t).enc h) w.old w.new result }
{
    zero(w)?;
    expected_type(w, h.obu_type, t)?;
    w.flag(h.extension_flag)?;
    header_end(w, h)
}

// The size, if flagged.
#[inline(always)]
pub fn obu_size(w: &mut BitWriter, has_size_field: bool, size: u32) -> Result<(), Refusal>
    ensures { Walked (obu_size has_size_field size) w.old w.new result }
{
    if has_size_field {
        return w.leb128(size);
    }
    Ok(())
}

// 5.3.4, behind a payload of so many bits.
pub fn trailing_bits(w: &mut BitWriter, length: usize) -> Result<(), Refusal>
    ensures { Walked (trailing_bits length) w.old w.new result }
{
    let padding = 7 - (length % 8) as u32;
    w.flag(true)?;
    w.f(padding, 0, 0, 0)
}
