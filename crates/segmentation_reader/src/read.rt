// 5.9.14 segmentation_params, read into the record's numbers, whose context is kept.
#![tactic(auto, using(crate::proofs::Features::feature_fillings))]

ghost use Rattle.std.specs.Prelude.{◌≡◌, false, replicate, pos};
ghost use Rattle.bits.specs.Codec.{flag, ◌▷◌};
ghost use Rattle.reader.specs.Reading.{Said};
ghost use Rattle.fill.specs.Fills.{Fills, signed_bit, ◌▸◌};
ghost use Rattle.parts_reader.specs.Reading.{Tells, number_at};
ghost use Rattle.segmentation.specs.Segmentation.{features, none, features_if, temporal_update, with_reference, without_reference, enabled_params, segmentation_params};
ghost use Rattle.segmentation_reader.specs.Layout.{features_place, enabled_place, segmentation_place, segmentation_by};

use crate::feature::feature;
use bits::answer::Refusal;
use parts_reader::place::begin;
use reader::BitReader;
use segmentation::record::SegmentationContext;
use segmentation_numbers::place;
use segmentation_numbers::record::segmentation_context;

fn features(r: &mut BitReader, n: &mut [i32; 133]) -> Result<(), Refusal>
    ensures { Fills features_place features.dec r.old r.new result n.old n.new }
{
    for i in 0..64 {
        feature(r, i, n)?;
    }
    Ok(())
}

// All features are clear.
fn no_features(n: &mut [i32; 133])
    ensures { n.new ≡ features_place.put none.1 n.old }
{
    for i in 0..64 {
        n[place::FEATURE_ENABLED + i] = 0;
        n[place::FEATURE_DATA + i] = 0;
    }
}

#[tactic(auto, using(crate::proofs::Features::feature_fillings), unfolding(segmentation::specs::Segmentation::features_if))]
fn features_if(r: &mut BitReader, update: bool, n: &mut [i32; 133]) -> Result<(), Refusal>
    ensures { Fills features_place (features_if update).dec r.old r.new result n.old n.new }
{
    if update {
        return features(r, n);
    }
    no_features(n);
    Ok(())
}

#[tactic(auto, using(reader::proofs::Reading::readings), unfolding(segmentation::specs::Segmentation::temporal_update))]
fn temporal_update(r: &mut BitReader, map: bool) -> Result<bool, Refusal>
    ensures { Said (temporal_update map).dec r.old r.new result }
{
    if map { r.flag() } else { Ok(false) }
}

// The flag, and the features that go by it.
fn update_data(r: &mut BitReader, n: &mut [i32; 133]) -> Result<(), Refusal>
    ensures { Fills (number_at 4 signed_bit ▸ features_place) (flag ▷ λ update. features_if update).dec r.old r.new result n.old n.new }
{
    let update = r.flag()?;
    n[place::SEGMENTATION_UPDATE_DATA] = update as i32;
    features_if(r, update, n)
}

#[tactic(auto, using(crate::proofs::Features::feature_fillings), unfolding(segmentation::specs::Segmentation::with_reference, segmentation::specs::Segmentation::coded_updates, crate::specs::Layout::enabled_place))]
fn with_reference(r: &mut BitReader, n: &mut [i32; 133]) -> Result<(), Refusal>
    ensures { Fills enabled_place with_reference.dec r.old r.new result n.old n.new }
{
    let map = r.flag()?;
    n[place::SEGMENTATION_UPDATE_MAP] = map as i32;
    let temporal = temporal_update(r, map)?;
    n[place::SEGMENTATION_TEMPORAL_UPDATE] = temporal as i32;
    update_data(r, n)
}

fn without_reference(r: &mut BitReader, n: &mut [i32; 133]) -> Result<(), Refusal>
    ensures { Fills enabled_place without_reference.dec r.old r.new result n.old n.new }
{
    n[place::SEGMENTATION_UPDATE_MAP] = 1;
    n[place::SEGMENTATION_TEMPORAL_UPDATE] = 0;
    n[place::SEGMENTATION_UPDATE_DATA] = 1;
    features(r, n)
}

#[tactic(auto, using(crate::proofs::Features::feature_fillings), unfolding(segmentation::specs::Segmentation::enabled_params))]
fn enabled_params(
    r: &mut BitReader,
    context: SegmentationContext,
    n: &mut [i32; 133],
) -> Result<(), Refusal>
    ensures { Fills enabled_place (enabled_params context.primary_ref_frame).dec r.old r.new result n.old n.new }
{
    if context.primary_ref_frame == 7 {
        return without_reference(r, n);
    }
    with_reference(r, n)
}

// Segmentation is off.
fn disabled(n: &mut [i32; 133])
    ensures { n.new ≡ (number_at 1 signed_bit ▸ enabled_place).put (false, none) n.old }
{
    n[place::SEGMENTATION_ENABLED] = 0;
    n[place::SEGMENTATION_UPDATE_MAP] = 0;
    n[place::SEGMENTATION_TEMPORAL_UPDATE] = 0;
    n[place::SEGMENTATION_UPDATE_DATA] = 0;
    no_features(n);
}

// The part from the bit `place` of `input` on, behind the context's numbers; where it is refused, all numbers are as they were.
pub fn fill_segmentation_params(
    input: &[u8],
    place: u32,
    context: SegmentationContext,
    n: &mut [i32; 133],
) -> Result<u32, Refusal>
    ensures { Tells segmentation_place (segmentation_params context) place input.now n.old result n.new }
{
    let mut r = begin(input, place)?;
    if !r.flag()? {
        // Nothing can be refused behind the flag, and the numbers need no copy.
        disabled(n);
        return Ok(r.at as u32);
    }
    let mut m = *n;
    m[place::SEGMENTATION_ENABLED] = 1;
    enabled_params(&mut r, context, &mut m)?;
    *n = m;
    Ok(r.at as u32)
}

// The same, by the context that stands in the numbers.
pub fn read_segmentation_numbers(
    input: &[u8],
    place: u32,
    n: &mut [i32; 133],
) -> Result<u32, Refusal>
    ensures { Tells segmentation_place (segmentation_by n.old) place input.now n.old result n.new }
{
    let context = segmentation_context(n);
    fill_segmentation_params(input, place, context, n)
}

// The part from the bit `place` of `input` on; where it is refused, all numbers are 0. (The context's places are 0 in either case.)
pub fn read_segmentation_params(
    input: &[u8],
    place: u32,
    context: SegmentationContext,
    n: &mut [i32; 133],
) -> Result<u32, Refusal>
    ensures { Tells segmentation_place (segmentation_params context) place input.now (replicate 133 (pos 0)) result n.new }
{
    *n = [0i32; 133];
    fill_segmentation_params(input, place, context, n)
}
