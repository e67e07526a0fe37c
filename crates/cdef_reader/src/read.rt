// 5.9.19 cdef_params, read into the record's numbers, whose context is kept.
#![tactic(auto, using(crate::proofs::Strengths::strength_fillings))]

ghost use Rattle.std.specs.Prelude.{◌≡◌, ◌<◌, replicate, pos};
ghost use Rattle.bits.specs.Codec.{absent, choose};
ghost use Rattle.reader.specs.Reading.{Said};
ghost use Rattle.fill.specs.Fills.{Fills};
ghost use Rattle.parts_reader.specs.Reading.{Tells};
ghost use Rattle.cdef.specs.Cdef.{damping, swapped, none, strength, strengths, each_strength, cdef_on, cdef_off, cdef_params};
ghost use Rattle.cdef_reader.specs.Layout.{strength_place, strengths_place, each_place, cdef_place, cdef_by};

use bits::answer::Refusal;
use cdef::record::{CdefContext, places};
use cdef_numbers::place;
use cdef_numbers::record::cdef_context;
use parts_reader::place::begin;
use reader::BitReader;

fn damping(r: &mut BitReader) -> Result<u32, Refusal>
    ensures { Said damping.dec r.old r.new result }
{
    Ok(r.f(2)? + 3)
}

// What the two bits of a secondary strength stand for.
fn secondary(bits: u32) -> i32
    requires { bits < 4 }
    ensures { result ≡ pos (swapped bits) }
{
    if bits == 3 { 4 } else { bits as i32 }
}

// A primary strength of four bits and a secondary one of two, read as one field.
fn strength(r: &mut BitReader, pri: usize, sec: usize, n: &mut [i32; 38]) -> Result<(), Refusal>
    requires { (pri < 38) × (sec < 38) }
    ensures { Fills (strength_place pri sec) (strength 0 0 0).dec r.old r.new result n.old n.new }
{
    let both = r.f(6)?;
    n[pri] = (both / 4) as i32;
    n[sec] = secondary(both % 4);
    Ok(())
}

fn strengths(r: &mut BitReader, planes: u32, i: usize, n: &mut [i32; 38]) -> Result<(), Refusal>
    requires { i < 8 }
    ensures { Fills (strengths_place i) (strengths planes i).dec r.old r.new result n.old n.new }
{
    strength(
        r,
        place::CDEF_Y_PRI_STRENGTH + i,
        place::CDEF_Y_SEC_STRENGTH + i,
        n,
    )?;
    if planes == 1 {
        n[place::CDEF_UV_PRI_STRENGTH + i] = 0;
        n[place::CDEF_UV_SEC_STRENGTH + i] = 0;
        return Ok(());
    }
    strength(
        r,
        place::CDEF_UV_PRI_STRENGTH + i,
        place::CDEF_UV_SEC_STRENGTH + i,
        n,
    )
}

// A place that is not coded is 0.
fn strengths_if(
    r: &mut BitReader,
    coded: bool,
    planes: u32,
    i: usize,
    n: &mut [i32; 38],
) -> Result<(), Refusal>
    requires { i < 8 }
    ensures { Fills (strengths_place i) (choose coded (strengths planes i) (absent none)).dec r.old r.new result n.old n.new }
{
    if coded {
        return strengths(r, planes, i, n);
    }
    n[place::CDEF_Y_PRI_STRENGTH + i] = 0;
    n[place::CDEF_Y_SEC_STRENGTH + i] = 0;
    n[place::CDEF_UV_PRI_STRENGTH + i] = 0;
    n[place::CDEF_UV_SEC_STRENGTH + i] = 0;
    Ok(())
}

fn each_strength(
    r: &mut BitReader,
    planes: u32,
    count: usize,
    n: &mut [i32; 38],
) -> Result<(), Refusal>
    ensures { Fills each_place (each_strength planes count).dec r.old r.new result n.old n.new }
{
    for i in 0..8 {
        strengths_if(r, i < count, planes, i, n)?;
    }
    Ok(())
}

#[tactic(auto, using(crate::proofs::Strengths::cdef_fillings), unfolding(cdef::specs::Cdef::cdef_on, cdef::specs::Cdef::on_table, crate::specs::Layout::cdef_place))]
fn cdef_on(r: &mut BitReader, planes: u32, n: &mut [i32; 38]) -> Result<(), Refusal>
    ensures { Fills cdef_place (cdef_on planes).dec r.old r.new result n.old n.new }
{
    n[place::CDEF_DAMPING] = damping(r)? as i32;
    let bits = r.f(2)?;
    n[place::CDEF_BITS] = bits as i32;
    each_strength(r, planes, places(bits), n)
}

// No place is coded.
#[tactic(auto, using(crate::proofs::Strengths::cdef_fillings))]
fn cdef_off(r: &mut BitReader, n: &mut [i32; 38]) -> Result<(), Refusal>
    ensures { Fills cdef_place cdef_off.dec r.old r.new result n.old n.new }
{
    n[place::CDEF_DAMPING] = 3;
    n[place::CDEF_BITS] = 0;
    each_strength(r, 1, 0, n)
}

#[tactic(auto, using(fill::proofs::Filling::fillings), unfolding(cdef::specs::Cdef::cdef_params))]
fn cdef_params(r: &mut BitReader, context: CdefContext, n: &mut [i32; 38]) -> Result<(), Refusal>
    ensures { Fills cdef_place (cdef_params context).dec r.old r.new result n.old n.new }
{
    if context.is_off() {
        return cdef_off(r, n);
    }
    cdef_on(r, context.planes, n)
}

// The part from the bit `place` of `input` on, behind the context's numbers; where it is refused, all numbers are as they were.
pub fn fill_cdef_params(
    input: &[u8],
    place: u32,
    context: CdefContext,
    n: &mut [i32; 38],
) -> Result<u32, Refusal>
    ensures { Tells cdef_place (cdef_params context) place input.now n.old result n.new }
{
    let mut r = begin(input, place)?;
    let mut m = *n;
    cdef_params(&mut r, context, &mut m)?;
    *n = m;
    Ok(r.at as u32)
}

// The same, by the context that stands in the numbers.
pub fn read_cdef_numbers(input: &[u8], place: u32, n: &mut [i32; 38]) -> Result<u32, Refusal>
    ensures { Tells cdef_place (cdef_by n.old) place input.now n.old result n.new }
{
    let context = cdef_context(n);
    fill_cdef_params(input, place, context, n)
}

// The part from the bit `place` of `input` on; where it is refused, all numbers are 0. (The context's places are 0 in either case.)
pub fn read_cdef_params(
    input: &[u8],
    place: u32,
    context: CdefContext,
    n: &mut [i32; 38],
) -> Result<u32, Refusal>
    ensures { Tells cdef_place (cdef_params context) place input.now (replicate 38 (pos 0)) result n.new }
{
    *n = [0i32; 38];
    fill_cdef_params(input, place, context, n)
}
