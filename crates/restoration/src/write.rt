// 5.9.20 lr_params, written.
ghost use Rattle.writer.specs.Walked.{Walked};
ghost use Rattle.parts.specs.Written.{Writes};
ghost use Rattle.restoration.specs.Restoration.{large_shift, small_shift, unit_shift, uv_shift, shifts, shifts_out, uses, uses_out, kinds_out, three_planes, one_plane, no_kinds, no_planes, lr_out, lr_params};

use crate::packed::kinds;
use crate::record::*;
use bits::answer::*;
use bits::element::*;
use parts::place::*;
use writer::BitWriter;

fn large_shift(w: &mut BitWriter, shift: u32) -> Result<(), Refusal>
    ensures { Walked (large_shift.enc shift) w.old w.new result }
{
    if shift == 0 {
        return Err(Refusal::Inconsistent(LR_UNIT_SHIFT, 0));
    }
    w.field(1, shift - 1, Refusal::Unfit(LR_UNIT_SHIFT, 0, 0))
}

fn small_shift(w: &mut BitWriter, shift: u32) -> Result<(), Refusal>
    ensures { Walked (small_shift.enc shift) w.old w.new result }
{
    if shift == 0 {
        return w.flag(false);
    }
    w.flag(true)?;
    w.field(1, shift - 1, Refusal::Unfit(LR_UNIT_SHIFT, 0, 0))
}

fn unit_shift(w: &mut BitWriter, large: bool, shift: u32) -> Result<(), Refusal>
    ensures { Walked ((unit_shift large).enc shift) w.old w.new result }
{
    if large {
        return large_shift(w, shift);
    }
    small_shift(w, shift)
}

fn uv_shift(w: &mut BitWriter, coded: bool, shift: u32) -> Result<(), Refusal>
    ensures { Walked ((uv_shift coded).enc shift) w.old w.new result }
{
    if coded {
        return w.f(1, shift, LR_UV_SHIFT, 0);
    }
    w.demand(shift == 0, LR_UV_SHIFT, 0)
}

fn shifts(
    w: &mut BitWriter,
    p: LoopRestorationParams,
    context: LoopRestorationContext,
    chroma: bool,
) -> Result<(), Refusal>
    ensures { Walked ((shifts context chroma).enc (shifts_out p)) w.old w.new result }
{
    unit_shift(w, context.use_128x128_superblock, p.lr_unit_shift)?;
    uv_shift(w, context.codes_uv_shift(chroma), p.lr_uv_shift)
}

fn uses(
    w: &mut BitWriter,
    p: LoopRestorationParams,
    context: LoopRestorationContext,
    restored: bool,
    chroma: bool,
) -> Result<(), Refusal>
    ensures { Walked ((uses context restored chroma).enc (uses_out p)) w.old w.new result }
{
    w.inferred_flag(p.uses_lr, restored, USES_LR, 0)?;
    w.inferred_flag(p.uses_chroma_lr, chroma, USES_CHROMA_LR, 0)?;
    if restored {
        return shifts(w, p, context, chroma);
    }
    Ok(())
}

fn three_planes(
    w: &mut BitWriter,
    p: LoopRestorationParams,
    context: LoopRestorationContext,
) -> Result<(), Refusal>
    ensures { Walked ((three_planes context).enc (lr_out p)) w.old w.new result }
{
    kinds(w, p)?;
    let chroma = chroma_used(p.frame_restoration_type[1], p.frame_restoration_type[2]);
    let restored = used(p.frame_restoration_type[0], chroma);
    uses(w, p, context, restored, chroma)
}

fn one_plane(
    w: &mut BitWriter,
    p: LoopRestorationParams,
    context: LoopRestorationContext,
) -> Result<(), Refusal>
    ensures { Walked ((one_plane context).enc (lr_out p)) w.old w.new result }
{
    w.f(2, p.frame_restoration_type[0], FRAME_RESTORATION_TYPE, 0)?;
    uses(
        w,
        p,
        context,
        used(p.frame_restoration_type[0], false),
        false,
    )
}

fn no_kinds(w: &mut BitWriter, p: LoopRestorationParams) -> Result<(), Refusal>
    ensures { Walked (no_kinds.enc (kinds_out p)) w.old w.new result }
{
    w.demand(p.frame_restoration_type[0] == 0, FRAME_RESTORATION_TYPE, 0)?;
    w.demand(p.frame_restoration_type[1] == 0, FRAME_RESTORATION_TYPE, 0)?;
    w.demand(p.frame_restoration_type[2] == 0, FRAME_RESTORATION_TYPE, 0)
}

fn no_planes(w: &mut BitWriter, p: LoopRestorationParams) -> Result<(), Refusal>
    ensures { Walked (no_planes.enc (lr_out p)) w.old w.new result }
{
    no_kinds(w, p)?;
    w.demand(!p.uses_lr, USES_LR, 0)
}

fn lr_params(
    w: &mut BitWriter,
    p: LoopRestorationParams,
    context: LoopRestorationContext,
) -> Result<(), Refusal>
    ensures { Walked ((lr_params context).enc p) w.old w.new result }
{
    if context.is_off() {
        return no_planes(w, p);
    }
    if context.planes == 1 {
        return one_plane(w, p, context);
    }
    three_planes(w, p, context)
}

// The part written from the bit `place` of `out` on.
pub fn write_lr_params(
    p: LoopRestorationParams,
    context: LoopRestorationContext,
    out: &mut [u8],
    place: u32,
) -> Result<u32, Refusal>
    ensures { Writes ((lr_params context).enc p) place out.old result out.new }
{
    let mut near = [0u8; (LR_PARAMS_MAX_BITS + SPARE_BITS) / 64 * 8];
    lend(out, place, &mut near);
    let mut w = BitWriter {
        out: &mut near,
        at: start(place),
    };
    let walk = lr_params(&mut w, p, context);
    let at = w.at;
    settle(walk, at, place, &near, out)
}
