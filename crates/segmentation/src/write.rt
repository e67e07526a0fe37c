// 5.9.14 segmentation_params, written.
ghost use Rattle.std.specs.Prelude.{pos};
ghost use Rattle.writer.specs.Walked.{Walked};
ghost use Rattle.parts.specs.Written.{Writes};
ghost use Rattle.bits.specs.Elements.{feature_data};
ghost use Rattle.parts.specs.Codes.{inferred_signed};
ghost use Rattle.segmentation.specs.Segmentation.{features, features_out, no_flags, no_data, features_if, temporal_update, coded_updates, inferred_updates, updates_out, with_reference, without_reference, enabled_out, segmentation_params};

use crate::packed::feature;
use crate::record::*;
use bits::answer::*;
use bits::element::*;
use parts::place::*;
use writer::BitWriter;

fn features(w: &mut BitWriter, p: SegmentationParams) -> Result<(), Refusal>
    ensures { Walked (features.enc (features_out p)) w.old w.new result }
{
    for i in 0..64 {
        feature(w, p.feature_enabled[i], p.feature_data[i], i)?;
    }
    Ok(())
}

fn no_flags(w: &mut BitWriter, p: SegmentationParams) -> Result<(), Refusal>
    ensures { Walked (no_flags.enc p.feature_enabled) w.old w.new result }
{
    for enabled in p.feature_enabled {
        w.inferred_flag(enabled, false, FEATURE_ENABLED, 0)?;
    }
    Ok(())
}

fn no_value(w: &mut BitWriter, v: i16) -> Result<(), Refusal>
    ensures { Walked ((inferred_signed feature_data (pos 0)).enc v) w.old w.new result }
{
    w.demand(v == 0, FEATURE_DATA, 0)
}

fn no_data(w: &mut BitWriter, p: SegmentationParams) -> Result<(), Refusal>
    ensures { Walked (no_data.enc p.feature_data) w.old w.new result }
{
    for value in p.feature_data {
        no_value(w, value)?;
    }
    Ok(())
}

fn features_if(w: &mut BitWriter, p: SegmentationParams) -> Result<(), Refusal>
    ensures { Walked ((features_if p.segmentation_update_data).enc (features_out p)) w.old w.new result }
{
    if p.segmentation_update_data {
        return features(w, p);
    }
    no_flags(w, p)?;
    no_data(w, p)
}

fn temporal_update(w: &mut BitWriter, p: SegmentationParams) -> Result<(), Refusal>
    ensures { Walked ((temporal_update p.segmentation_update_map).enc p.segmentation_temporal_update) w.old w.new result }
{
    if p.segmentation_update_map {
        return w.flag(p.segmentation_temporal_update);
    }
    Ok(())
}

fn coded_updates(w: &mut BitWriter, p: SegmentationParams) -> Result<(), Refusal>
    ensures { Walked (coded_updates.enc (updates_out p)) w.old w.new result }
{
    w.flag(p.segmentation_update_map)?;
    temporal_update(w, p)?;
    w.flag(p.segmentation_update_data)
}

fn inferred_updates(w: &mut BitWriter, p: SegmentationParams) -> Result<(), Refusal>
    ensures { Walked (inferred_updates.enc (updates_out p)) w.old w.new result }
{
    w.inferred_flag(p.segmentation_update_map, true, SEGMENTATION_UPDATE_MAP, 0)?;
    w.inferred_flag(
        p.segmentation_temporal_update,
        false,
        SEGMENTATION_TEMPORAL_UPDATE,
        0,
    )?;
    w.inferred_flag(
        p.segmentation_update_data,
        true,
        SEGMENTATION_UPDATE_DATA,
        0,
    )
}

fn with_reference(w: &mut BitWriter, p: SegmentationParams) -> Result<(), Refusal>
    ensures { Walked (with_reference.enc (enabled_out p)) w.old w.new result }
{
    coded_updates(w, p)?;
    features_if(w, p)
}

fn without_reference(w: &mut BitWriter, p: SegmentationParams) -> Result<(), Refusal>
    ensures { Walked (without_reference.enc (enabled_out p)) w.old w.new result }
{
    inferred_updates(w, p)?;
    features_if(w, p)
}

fn segmentation_params(
    w: &mut BitWriter,
    p: SegmentationParams,
    context: SegmentationContext,
) -> Result<(), Refusal>
    ensures { Walked ((segmentation_params context).enc p) w.old w.new result }
{
    w.flag(p.segmentation_enabled)?;
    if p.segmentation_enabled {
        if context.primary_ref_frame == 7 {
            return without_reference(w, p);
        }
        return with_reference(w, p);
    }
    Ok(())
}

// The part written from the bit `place` of `out` on.
pub fn write_segmentation_params(
    p: SegmentationParams,
    context: SegmentationContext,
    out: &mut [u8],
    place: u32,
) -> Result<u32, Refusal>
    ensures { Writes ((segmentation_params context).enc p) place out.old result out.new }
{
    let mut near = [0u8; (SEGMENTATION_PARAMS_MAX_BITS + SPARE_BITS) / 64 * 8];
    lend(out, place, &mut near);
    let mut w = BitWriter {
        out: &mut near,
        at: start(place),
    };
    let walk = segmentation_params(&mut w, p, context);
    let at = w.at;
    settle(walk, at, place, &near, out)
}
