// The strengths of one place, written: one field, where all of them fit.
ghost use Rattle.std.specs.Prelude.{◌≡◌, ◌<◌, get_or};
ghost use Rattle.writer.specs.Walked.{Walked};
ghost use Rattle.cdef.specs.Packed.{packed};
ghost use Rattle.cdef.specs.Cdef.{secondary, strength, strengths, none, strengths_out};

use crate::record::CdefParams;
use bits::answer::*;
use bits::element::*;
use writer::BitWriter;

fn secondary(w: &mut BitWriter, v: u32, element: u8, i: u8) -> Result<(), Refusal>
    ensures { Walked ((secondary element i).enc v) w.old w.new result }
{
    if v == 3 {
        return Err(Refusal::Inconsistent(element, i));
    }
    let refusal = Refusal::Unfit(element, i, 0);
    if v == 4 {
        return w.field(2, 3, refusal);
    }
    w.field(2, v, refusal)
}

// A primary and a secondary strength, each with its element.
fn strength(
    w: &mut BitWriter,
    pri: u32,
    sec: u32,
    pri_element: u8,
    sec_element: u8,
    i: u8,
) -> Result<(), Refusal>
    ensures { Walked ((strength pri_element sec_element i).enc (pri, sec)) w.old w.new result }
{
    w.f(4, pri, pri_element, i)?;
    secondary(w, sec, sec_element, i)
}

// The six bits of a primary and a secondary strength, or 64 where one of them is refused.
fn packed(pri: u32, sec: u32) -> u32
    ensures { result ≡ packed pri sec }
{
    if pri < 16 {
        if sec < 3 {
            return pri * 4 + sec;
        }
        if sec == 4 {
            return pri * 4 + 3;
        }
    }
    64
}

// Field by field.
fn strengths_apart(w: &mut BitWriter, planes: u32, p: CdefParams, i: usize) -> Result<(), Refusal>
    requires { i < 8 }
    ensures { Walked ((strengths planes i).enc (get_or (strengths_out p) i none)) w.old w.new result }
{
    strength(
        w,
        p.cdef_y_pri_strength[i],
        p.cdef_y_sec_strength[i],
        CDEF_Y_PRI_STRENGTH,
        CDEF_Y_SEC_STRENGTH,
        i as u8,
    )?;
    if planes == 1 {
        return Ok(());
    }
    strength(
        w,
        p.cdef_uv_pri_strength[i],
        p.cdef_uv_sec_strength[i],
        CDEF_UV_PRI_STRENGTH,
        CDEF_UV_SEC_STRENGTH,
        i as u8,
    )
}

pub fn strengths(w: &mut BitWriter, planes: u32, p: CdefParams, i: usize) -> Result<(), Refusal>
    requires { i < 8 }
    ensures { Walked ((strengths planes i).enc (get_or (strengths_out p) i none)) w.old w.new result }
{
    let y = packed(p.cdef_y_pri_strength[i], p.cdef_y_sec_strength[i]);
    if planes == 1 {
        if y < 64 {
            return w.f(6, y, CDEF_Y_PRI_STRENGTH, i as u8);
        }
    } else {
        let uv = packed(p.cdef_uv_pri_strength[i], p.cdef_uv_sec_strength[i]);
        if y < 64 {
            if uv < 64 {
                return w.f(12, y * 64 + uv, CDEF_Y_PRI_STRENGTH, i as u8);
            }
        }
    }
    strengths_apart(w, planes, p, i)
}
