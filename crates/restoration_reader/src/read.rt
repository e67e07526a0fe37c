// 5.9.20 lr_params, read into the record's numbers, whose context is kept.
#![tactic(auto, using(crate::proofs::Restoring::lr_readings))]

ghost use Rattle.std.specs.Prelude.{replicate, pos};
ghost use Rattle.reader.specs.Reading.{Said};
ghost use Rattle.fill.specs.Fills.{Fills};
ghost use Rattle.parts_reader.specs.Reading.{Tells};
ghost use Rattle.restoration.specs.Restoration.{large_shift, small_shift, unit_shift, uv_shift, shifts, uses, three_planes, one_plane, lr_params};
ghost use Rattle.restoration_reader.specs.Layout.{shifts_place, uses_place, planes_place, lr_place, lr_by};

use bits::answer::Refusal;
use parts_reader::place::begin;
use reader::BitReader;
use restoration::record::{LoopRestorationContext, chroma_used, used};
use restoration_numbers::place;
use restoration_numbers::record::lr_context;

fn large_shift(r: &mut BitReader) -> Result<u32, Refusal>
    ensures { Said large_shift.dec r.old r.new result }
{
    Ok(r.f(1)? + 1)
}

// Behind a set flag the bit is that of a large shift.
fn small_shift(r: &mut BitReader) -> Result<u32, Refusal>
    ensures { Said small_shift.dec r.old r.new result }
{
    if r.flag()? {
        return large_shift(r);
    }
    Ok(0)
}

#[tactic(auto, using(crate::proofs::Restoring::lr_readings), unfolding(restoration::specs::Restoration::unit_shift))]
fn unit_shift(r: &mut BitReader, large: bool) -> Result<u32, Refusal>
    ensures { Said (unit_shift large).dec r.old r.new result }
{
    if large {
        return large_shift(r);
    }
    small_shift(r)
}

#[tactic(auto, using(crate::proofs::Restoring::lr_readings), unfolding(restoration::specs::Restoration::uv_shift))]
fn uv_shift(r: &mut BitReader, coded: bool) -> Result<u32, Refusal>
    ensures { Said (uv_shift coded).dec r.old r.new result }
{
    if coded {
        return r.f(1);
    }
    Ok(0)
}

#[tactic(auto, using(crate::proofs::Restoring::lr_fillings), unfolding(restoration::specs::Restoration::shifts, crate::specs::Layout::shifts_place))]
fn shifts(
    r: &mut BitReader,
    context: LoopRestorationContext,
    chroma: bool,
    n: &mut [i32; 14],
) -> Result<(), Refusal>
    ensures { Fills shifts_place (shifts context chroma).dec r.old r.new result n.old n.new }
{
    n[place::LR_UNIT_SHIFT] = unit_shift(r, context.use_128x128_superblock)? as i32;
    n[place::LR_UV_SHIFT] = uv_shift(r, context.codes_uv_shift(chroma))? as i32;
    Ok(())
}

#[tactic(auto, using(crate::proofs::Restoring::lr_fillings), unfolding(restoration::specs::Restoration::uses, crate::specs::Layout::uses_place))]
fn uses(
    r: &mut BitReader,
    context: LoopRestorationContext,
    restored: bool,
    chroma: bool,
    n: &mut [i32; 14],
) -> Result<(), Refusal>
    ensures { Fills uses_place (uses context restored chroma).dec r.old r.new result n.old n.new }
{
    n[place::USES_LR] = restored as i32;
    n[place::USES_CHROMA_LR] = chroma as i32;
    if restored {
        return shifts(r, context, chroma, n);
    }
    n[place::LR_UNIT_SHIFT] = 0;
    n[place::LR_UV_SHIFT] = 0;
    Ok(())
}

// The three kinds are read as one field.
#[tactic(auto, using(crate::proofs::Restoring::lr_fillings))]
fn three_planes(
    r: &mut BitReader,
    context: LoopRestorationContext,
    n: &mut [i32; 14],
) -> Result<(), Refusal>
    ensures { Fills planes_place (three_planes context).dec r.old r.new result n.old n.new }
{
    let kinds = r.f(6)?;
    let (y, u, v) = (kinds / 16, kinds / 4 % 4, kinds % 4);
    n[place::FRAME_RESTORATION_TYPE] = y as i32;
    n[place::FRAME_RESTORATION_TYPE + 1] = u as i32;
    n[place::FRAME_RESTORATION_TYPE + 2] = v as i32;
    let chroma = chroma_used(u, v);
    uses(r, context, used(y, chroma), chroma, n)
}

#[tactic(auto, using(crate::proofs::Restoring::lr_fillings), unfolding(restoration::specs::Restoration::one_plane, restoration::specs::Restoration::one_kind, crate::specs::Layout::planes_place))]
fn one_plane(
    r: &mut BitReader,
    context: LoopRestorationContext,
    n: &mut [i32; 14],
) -> Result<(), Refusal>
    ensures { Fills planes_place (one_plane context).dec r.old r.new result n.old n.new }
{
    let y = r.f(2)?;
    n[place::FRAME_RESTORATION_TYPE] = y as i32;
    n[place::FRAME_RESTORATION_TYPE + 1] = 0;
    n[place::FRAME_RESTORATION_TYPE + 2] = 0;
    uses(r, context, used(y, false), false, n)
}

// Where nothing is restored all seven are 0.
#[tactic(auto, using(crate::proofs::Restoring::lr_fillings), unfolding(restoration::specs::Restoration::lr_params, restoration::specs::Restoration::lr_table, crate::specs::Layout::lr_place))]
fn lr_params(
    r: &mut BitReader,
    context: LoopRestorationContext,
    n: &mut [i32; 14],
) -> Result<(), Refusal>
    ensures { Fills lr_place (lr_params context).dec r.old r.new result n.old n.new }
{
    if context.is_off() {
        n[place::FRAME_RESTORATION_TYPE] = 0;
        n[place::FRAME_RESTORATION_TYPE + 1] = 0;
        n[place::FRAME_RESTORATION_TYPE + 2] = 0;
        n[place::USES_LR] = 0;
        n[place::USES_CHROMA_LR] = 0;
        n[place::LR_UNIT_SHIFT] = 0;
        n[place::LR_UV_SHIFT] = 0;
        return Ok(());
    }
    if context.planes == 1 {
        return one_plane(r, context, n);
    }
    three_planes(r, context, n)
}

// The part from the bit `place` of `input` on, behind the context's numbers; where it is refused, all numbers are as they were.
pub fn fill_lr_params(
    input: &[u8],
    place: u32,
    context: LoopRestorationContext,
    n: &mut [i32; 14],
) -> Result<u32, Refusal>
    ensures { Tells lr_place (lr_params context) place input.now n.old result n.new }
{
    let mut r = begin(input, place)?;
    let mut m = *n;
    lr_params(&mut r, context, &mut m)?;
    *n = m;
    Ok(r.at as u32)
}

// The same, by the context that stands in the numbers.
pub fn read_lr_numbers(input: &[u8], place: u32, n: &mut [i32; 14]) -> Result<u32, Refusal>
    ensures { Tells lr_place (lr_by n.old) place input.now n.old result n.new }
{
    let context = lr_context(n);
    fill_lr_params(input, place, context, n)
}

// The part from the bit `place` of `input` on; where it is refused, all numbers are 0. (The context's places are 0 in either case.)
pub fn read_lr_params(
    input: &[u8],
    place: u32,
    context: LoopRestorationContext,
    n: &mut [i32; 14],
) -> Result<u32, Refusal>
    ensures { Tells lr_place (lr_params context) place input.now (replicate 14 (pos 0)) result n.new }
{
    *n = [0i32; 14];
    fill_lr_params(input, place, context, n)
}
