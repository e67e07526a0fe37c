// 5.9.11 loop_filter_params, written.
ghost use Rattle.std.specs.Prelude.{◌≡◌, pos};
ghost use Rattle.writer.specs.Walked.{Walked};
ghost use Rattle.parts.specs.Written.{Writes};
ghost use Rattle.loop_filter.specs.LoopFilter.{chroma_coded, chroma_levels, levels, levels_out, delta, ref_deltas, mode_deltas, modes_out, deltas, deltas_out, delta_update, update_out, rest, rest_out, filter_on, default_refs, default_modes, no_levels, filter_off, loop_filter_out, loop_filter_params, no_old};

use crate::record::*;
use bits::answer::*;
use bits::element::*;
use parts::delta::coded_delta;
use parts::inferred::inferred_delta;
use parts::pair::pair;
use parts::place::*;
use writer::BitWriter;

// The deltas of the references where none are coded: intra, LAST, LAST2, LAST3, GOLDEN, BWDREF, ALTREF2, ALTREF.
pub const DEFAULT_DELTAS: [i32; 8] = [1, 0, 0, 0, -1, 0, -1, -1];

pub fn chroma_coded(planes: u32, a: u32, b: u32) -> bool
    ensures { result ≡ chroma_coded planes a b }
{
    planes != 1 && (a != 0 || b != 0)
}

fn chroma_levels(w: &mut BitWriter, coded: bool, u: u32, v: u32) -> Result<(), Refusal>
    ensures { Walked ((chroma_levels coded).enc (u, v)) w.old w.new result }
{
    if coded {
        return pair(w, 6, u, v, LOOP_FILTER_LEVEL, 2, LOOP_FILTER_LEVEL, 3);
    }
    Ok(())
}

fn levels(w: &mut BitWriter, planes: u32, p: LoopFilterParams) -> Result<(), Refusal>
    ensures { Walked ((levels planes).enc (levels_out p)) w.old w.new result }
{
    let a = p.loop_filter_level[0];
    let b = p.loop_filter_level[1];
    pair(w, 6, a, b, LOOP_FILTER_LEVEL, 0, LOOP_FILTER_LEVEL, 1)?;
    chroma_levels(
        w,
        chroma_coded(planes, a, b),
        p.loop_filter_level[2],
        p.loop_filter_level[3],
    )
}

fn delta(w: &mut BitWriter, value: i32, element: u8, i: u8) -> Result<(), Refusal>
    ensures { Walked ((delta (pos 0) element i).enc value) w.old w.new result }
{
    coded_delta(w, value, element, i)
}

fn ref_deltas(w: &mut BitWriter, p: LoopFilterParams) -> Result<(), Refusal>
    ensures { Walked ((ref_deltas no_old.0).enc p.loop_filter_ref_deltas) w.old w.new result }
{
    for i in 0..8 {
        delta(
            w,
            p.loop_filter_ref_deltas[i],
            LOOP_FILTER_REF_DELTAS,
            i as u8,
        )?;
    }
    Ok(())
}

fn mode_deltas(w: &mut BitWriter, p: LoopFilterParams) -> Result<(), Refusal>
    ensures { Walked ((mode_deltas no_old.1).enc (modes_out p)) w.old w.new result }
{
    delta(w, p.loop_filter_mode_deltas[0], LOOP_FILTER_MODE_DELTAS, 0)?;
    delta(w, p.loop_filter_mode_deltas[1], LOOP_FILTER_MODE_DELTAS, 1)
}

fn deltas(w: &mut BitWriter, p: LoopFilterParams) -> Result<(), Refusal>
    ensures { Walked ((deltas no_old).enc (deltas_out p)) w.old w.new result }
{
    ref_deltas(w, p)?;
    mode_deltas(w, p)
}

fn delta_update(w: &mut BitWriter, p: LoopFilterParams) -> Result<(), Refusal>
    ensures { Walked ((delta_update no_old).enc (update_out p)) w.old w.new result }
{
    w.flag(p.loop_filter_delta_update)?;
    if p.loop_filter_delta_update {
        return deltas(w, p);
    }
    Ok(())
}

fn rest(w: &mut BitWriter, p: LoopFilterParams) -> Result<(), Refusal>
    ensures { Walked ((rest no_old).enc (rest_out p)) w.old w.new result }
{
    w.f(3, p.loop_filter_sharpness, LOOP_FILTER_SHARPNESS, 0)?;
    w.flag(p.loop_filter_delta_enabled)?;
    if p.loop_filter_delta_enabled {
        return delta_update(w, p);
    }
    Ok(())
}

fn filter_on(w: &mut BitWriter, planes: u32, p: LoopFilterParams) -> Result<(), Refusal>
    ensures { Walked ((filter_on planes no_old).enc (loop_filter_out p)) w.old w.new result }
{
    levels(w, planes, p)?;
    rest(w, p)
}

fn default_refs(w: &mut BitWriter, p: LoopFilterParams) -> Result<(), Refusal>
    ensures { Walked (default_refs.enc p.loop_filter_ref_deltas) w.old w.new result }
{
    for i in 0..8 {
        inferred_delta(
            w,
            p.loop_filter_ref_deltas[i],
            DEFAULT_DELTAS[i],
            LOOP_FILTER_REF_DELTAS,
        )?;
    }
    Ok(())
}

fn default_modes(w: &mut BitWriter, p: LoopFilterParams) -> Result<(), Refusal>
    ensures { Walked (default_modes.enc (modes_out p)) w.old w.new result }
{
    inferred_delta(w, p.loop_filter_mode_deltas[0], 0, LOOP_FILTER_MODE_DELTAS)?;
    inferred_delta(w, p.loop_filter_mode_deltas[1], 0, LOOP_FILTER_MODE_DELTAS)
}

fn no_levels(w: &mut BitWriter, p: LoopFilterParams) -> Result<(), Refusal>
    ensures { Walked (no_levels.enc (levels_out p)) w.old w.new result }
{
    w.demand(p.loop_filter_level[0] == 0, LOOP_FILTER_LEVEL, 0)?;
    w.demand(p.loop_filter_level[1] == 0, LOOP_FILTER_LEVEL, 0)
}

fn filter_off(w: &mut BitWriter, p: LoopFilterParams) -> Result<(), Refusal>
    ensures { Walked (filter_off.enc (loop_filter_out p)) w.old w.new result }
{
    no_levels(w, p)?;
    default_refs(w, p)?;
    default_modes(w, p)
}

fn loop_filter_params(
    w: &mut BitWriter,
    p: LoopFilterParams,
    context: LoopFilterContext,
) -> Result<(), Refusal>
    ensures { Walked ((loop_filter_params context no_old).enc p) w.old w.new result }
{
    if context.is_off() {
        return filter_off(w, p);
    }
    filter_on(w, context.planes, p)
}

// The part written from the bit `place` of `out` on.
pub fn write_loop_filter_params(
    p: LoopFilterParams,
    context: LoopFilterContext,
    out: &mut [u8],
    place: u32,
) -> Result<u32, Refusal>
    ensures { Writes ((loop_filter_params context no_old).enc p) place out.old result out.new }
{
    let mut near = [0u8; (LOOP_FILTER_PARAMS_MAX_BITS + SPARE_BITS) / 64 * 8];
    lend(out, place, &mut near);
    let mut w = BitWriter {
        out: &mut near,
        at: start(place),
    };
    let walk = loop_filter_params(&mut w, p, context);
    let at = w.at;
    settle(walk, at, place, &near, out)
}
