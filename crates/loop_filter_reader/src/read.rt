// 5.9.11 loop_filter_params, read into the record's numbers, whose context is kept.
#![tactic(auto, using(crate::proofs::Deltas::filter_fillings))]

ghost use Rattle.std.specs.Prelude.{◌≡◌, replicate, pos};
ghost use Rattle.fill.specs.Fills.{Fills, ◌▸◌};
ghost use Rattle.parts_reader.specs.Reading.{Tells};
ghost use Rattle.loop_filter.specs.LoopFilter.{chroma_levels, levels, ref_deltas, mode_deltas, deltas, delta_update, rest, filter_on, loop_filter_params};
ghost use Rattle.loop_filter_reader.specs.Layout.{old_deltas, chroma_place, levels_place, refs_place, modes_place, deltas_place, update_place, rest_place, off, loop_filter_place, loop_filter_by};

use bits::answer::Refusal;
use loop_filter::record::LoopFilterContext;
use loop_filter::write::{DEFAULT_DELTAS, chroma_coded};
use loop_filter_numbers::place;
use loop_filter_numbers::record::loop_filter_context;
use parts_reader::delta::delta;
use parts_reader::place::begin;
use reader::BitReader;

#[tactic(auto, using(crate::proofs::Deltas::filter_fillings), unfolding(loop_filter::specs::LoopFilter::chroma_levels, crate::specs::Layout::chroma_place))]
fn chroma_levels(r: &mut BitReader, coded: bool, n: &mut [i32; 20]) -> Result<(), Refusal>
    ensures { Fills chroma_place (chroma_levels coded).dec r.old r.new result n.old n.new }
{
    if coded {
        n[place::LOOP_FILTER_LEVEL + 2] = r.f(6)? as i32;
        n[place::LOOP_FILTER_LEVEL + 3] = r.f(6)? as i32;
        return Ok(());
    }
    n[place::LOOP_FILTER_LEVEL + 2] = 0;
    n[place::LOOP_FILTER_LEVEL + 3] = 0;
    Ok(())
}

#[tactic(auto, using(crate::proofs::Deltas::filter_fillings), unfolding(loop_filter::specs::LoopFilter::levels, crate::specs::Layout::levels_place))]
fn levels(r: &mut BitReader, planes: u32, n: &mut [i32; 20]) -> Result<(), Refusal>
    ensures { Fills levels_place (levels planes).dec r.old r.new result n.old n.new }
{
    let a = r.f(6)?;
    n[place::LOOP_FILTER_LEVEL] = a as i32;
    let b = r.f(6)?;
    n[place::LOOP_FILTER_LEVEL + 1] = b as i32;
    chroma_levels(r, chroma_coded(planes, a, b), n)
}

fn ref_deltas(r: &mut BitReader, old: &[i32; 10], n: &mut [i32; 20]) -> Result<(), Refusal>
    ensures { Fills refs_place (ref_deltas (old_deltas old.now).0).dec r.old r.new result n.old n.new }
{
    for i in 0..8 {
        n[place::LOOP_FILTER_REF_DELTAS + i] = delta(r, old[i])?;
    }
    Ok(())
}

fn mode_deltas(r: &mut BitReader, old: &[i32; 10], n: &mut [i32; 20]) -> Result<(), Refusal>
    ensures { Fills modes_place (mode_deltas (old_deltas old.now).1).dec r.old r.new result n.old n.new }
{
    n[place::LOOP_FILTER_MODE_DELTAS] = delta(r, old[8])?;
    n[place::LOOP_FILTER_MODE_DELTAS + 1] = delta(r, old[9])?;
    Ok(())
}

fn deltas(r: &mut BitReader, old: &[i32; 10], n: &mut [i32; 20]) -> Result<(), Refusal>
    ensures { Fills deltas_place (deltas (old_deltas old.now)).dec r.old r.new result n.old n.new }
{
    ref_deltas(r, old, n)?;
    mode_deltas(r, old, n)
}

// None is coded: the old ones stand.
fn kept_deltas(old: &[i32; 10], n: &mut [i32; 20])
    ensures { n.new ≡ deltas_place.put (old_deltas old.now) n.old }
{
    n[place::LOOP_FILTER_REF_DELTAS..].copy_from_slice(old);
}

#[tactic(auto, using(crate::proofs::Deltas::filter_fillings), unfolding(loop_filter::specs::LoopFilter::delta_update, crate::specs::Layout::update_place))]
fn delta_update(r: &mut BitReader, old: &[i32; 10], n: &mut [i32; 20]) -> Result<(), Refusal>
    ensures { Fills update_place (delta_update (old_deltas old.now)).dec r.old r.new result n.old n.new }
{
    let update = r.flag()?;
    n[place::LOOP_FILTER_DELTA_UPDATE] = update as i32;
    if update {
        return deltas(r, old, n);
    }
    kept_deltas(old, n);
    Ok(())
}

#[tactic(auto, using(crate::proofs::Deltas::filter_fillings), unfolding(loop_filter::specs::LoopFilter::rest, crate::specs::Layout::rest_place))]
fn rest(r: &mut BitReader, old: &[i32; 10], n: &mut [i32; 20]) -> Result<(), Refusal>
    ensures { Fills rest_place (rest (old_deltas old.now)).dec r.old r.new result n.old n.new }
{
    n[place::LOOP_FILTER_SHARPNESS] = r.f(3)? as i32;
    let enabled = r.flag()?;
    n[place::LOOP_FILTER_DELTA_ENABLED] = enabled as i32;
    if enabled {
        return delta_update(r, old, n);
    }
    n[place::LOOP_FILTER_DELTA_UPDATE] = 0;
    kept_deltas(old, n);
    Ok(())
}

fn filter_on(
    r: &mut BitReader,
    planes: u32,
    old: &[i32; 10],
    n: &mut [i32; 20],
) -> Result<(), Refusal>
    ensures { Fills (levels_place ▸ rest_place) (filter_on planes (old_deltas old.now)).dec r.old r.new result n.old n.new }
{
    levels(r, planes, n)?;
    rest(r, old, n)
}

// No level is coded, and no delta: the references' are the defaults, and the modes' 0.
fn filter_off(n: &mut [i32; 20])
    ensures { n.new ≡ (levels_place ▸ rest_place).put off n.old }
{
    n[place::LOOP_FILTER_LEVEL] = 0;
    n[place::LOOP_FILTER_LEVEL + 1] = 0;
    n[place::LOOP_FILTER_LEVEL + 2] = 0;
    n[place::LOOP_FILTER_LEVEL + 3] = 0;
    n[place::LOOP_FILTER_SHARPNESS] = 0;
    n[place::LOOP_FILTER_DELTA_ENABLED] = 0;
    n[place::LOOP_FILTER_DELTA_UPDATE] = 0;
    let mut deltas = [0i32; 10];
    deltas[..8].copy_from_slice(&DEFAULT_DELTAS);
    kept_deltas(&deltas, n);
}

#[tactic(auto, using(crate::proofs::Deltas::filter_fillings), unfolding(loop_filter::specs::LoopFilter::loop_filter_params, loop_filter::specs::LoopFilter::loop_filter_table, crate::specs::Layout::loop_filter_place))]
fn loop_filter_params(
    r: &mut BitReader,
    context: LoopFilterContext,
    old: &[i32; 10],
    n: &mut [i32; 20],
) -> Result<(), Refusal>
    ensures { Fills loop_filter_place (loop_filter_params context (old_deltas old.now)).dec r.old r.new result n.old n.new }
{
    if context.is_off() {
        filter_off(n);
        return Ok(());
    }
    filter_on(r, context.planes, old, n)
}

// The part from the bit `place` of `input` on, behind the context's numbers; where it is refused, all numbers are as they were. `previous` are the deltas of
// the references and of the modes before this frame.
pub fn fill_loop_filter_params(
    input: &[u8],
    place: u32,
    context: LoopFilterContext,
    previous: &[i32; 10],
    n: &mut [i32; 20],
) -> Result<u32, Refusal>
    ensures { Tells loop_filter_place (loop_filter_params context (old_deltas previous.now)) place input.now n.old result n.new }
{
    let mut r = begin(input, place)?;
    let mut m = *n;
    loop_filter_params(&mut r, context, previous, &mut m)?;
    *n = m;
    Ok(r.at as u32)
}

// The same, by the context that stands in the numbers.
pub fn read_loop_filter_numbers(
    input: &[u8],
    place: u32,
    previous: &[i32; 10],
    n: &mut [i32; 20],
) -> Result<u32, Refusal>
    ensures { Tells loop_filter_place (loop_filter_by previous.now n.old) place input.now n.old result n.new }
{
    let context = loop_filter_context(n);
    fill_loop_filter_params(input, place, context, previous, n)
}

// The part from the bit `place` of `input` on; where it is refused, all numbers are 0. (The context's places are 0 in either case.)
pub fn read_loop_filter_params(
    input: &[u8],
    place: u32,
    context: LoopFilterContext,
    previous: &[i32; 10],
    n: &mut [i32; 20],
) -> Result<u32, Refusal>
    ensures { Tells loop_filter_place (loop_filter_params context (old_deltas previous.now)) place input.now (replicate 20 (pos 0)) result n.new }
{
    *n = [0i32; 20];
    fill_loop_filter_params(input, place, context, previous, n)
}
