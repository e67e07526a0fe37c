// 5.9.19 cdef_params, written.
ghost use Rattle.std.specs.Prelude.{◌≤◌};
ghost use Rattle.writer.specs.Walked.{Walked};
ghost use Rattle.parts.specs.Written.{Writes};
ghost use Rattle.cdef.specs.Cdef.{each_strength, strengths_out, no_strength, no_strengths, cdef_on, cdef_off, cdef_params};

use crate::packed::strengths;
use crate::record::*;
use bits::answer::*;
use bits::element::*;
use parts::pair::pair;
use parts::place::*;
use writer::BitWriter;

fn each_strength(w: &mut BitWriter, planes: u32, count: usize, p: CdefParams) -> Result<(), Refusal>
    requires { count ≤ 8 }
    ensures { Walked ((each_strength planes count).enc (strengths_out p)) w.old w.new result }
{
    for i in 0..count {
        strengths(w, planes, p, i)?;
    }
    Ok(())
}

fn cdef_on(w: &mut BitWriter, planes: u32, p: CdefParams) -> Result<(), Refusal>
    ensures { Walked ((cdef_on planes).enc p) w.old w.new result }
{
    if p.cdef_damping < 3 {
        return Err(Refusal::Unfit(CDEF_DAMPING, 0, 0));
    }
    if 6 < p.cdef_damping {
        return Err(Refusal::Unfit(CDEF_DAMPING, 0, 0));
    }
    pair(
        w,
        2,
        p.cdef_damping - 3,
        p.cdef_bits,
        CDEF_DAMPING,
        0,
        CDEF_BITS,
        0,
    )?;
    each_strength(w, planes, places(p.cdef_bits), p)
}

fn no_strength(
    w: &mut BitWriter,
    pri: u32,
    sec: u32,
    pri_element: u8,
    sec_element: u8,
) -> Result<(), Refusal>
    ensures { Walked ((no_strength pri_element sec_element).enc (pri, sec)) w.old w.new result }
{
    w.demand(pri == 0, pri_element, 0)?;
    w.demand(sec == 0, sec_element, 0)
}

// Place 0, and no other.
fn no_strengths(w: &mut BitWriter, p: CdefParams) -> Result<(), Refusal>
    ensures { Walked (no_strengths.enc (strengths_out p)) w.old w.new result }
{
    no_strength(
        w,
        p.cdef_y_pri_strength[0],
        p.cdef_y_sec_strength[0],
        CDEF_Y_PRI_STRENGTH,
        CDEF_Y_SEC_STRENGTH,
    )?;
    no_strength(
        w,
        p.cdef_uv_pri_strength[0],
        p.cdef_uv_sec_strength[0],
        CDEF_UV_PRI_STRENGTH,
        CDEF_UV_SEC_STRENGTH,
    )
}

fn cdef_off(w: &mut BitWriter, p: CdefParams) -> Result<(), Refusal>
    ensures { Walked (cdef_off.enc p) w.old w.new result }
{
    w.demand(p.cdef_bits == 0, CDEF_BITS, 0)?;
    no_strengths(w, p)?;
    w.demand(p.cdef_damping == 3, CDEF_DAMPING, 0)
}

fn cdef_params(w: &mut BitWriter, p: CdefParams, context: CdefContext) -> Result<(), Refusal>
    ensures { Walked ((cdef_params context).enc p) w.old w.new result }
{
    if context.is_off() {
        return cdef_off(w, p);
    }
    cdef_on(w, context.planes, p)
}

// The part written from the bit `place` of `out` on.
pub fn write_cdef_params(
    p: CdefParams,
    context: CdefContext,
    out: &mut [u8],
    place: u32,
) -> Result<u32, Refusal>
    ensures { Writes ((cdef_params context).enc p) place out.old result out.new }
{
    let mut near = [0u8; (CDEF_PARAMS_MAX_BITS + SPARE_BITS) / 64 * 8];
    lend(out, place, &mut near);
    let mut w = BitWriter {
        out: &mut near,
        at: start(place),
    };
    let walk = cdef_params(&mut w, p, context);
    let at = w.at;
    settle(walk, at, place, &near, out)
}
