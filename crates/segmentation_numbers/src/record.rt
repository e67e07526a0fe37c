// The record of the segmentation parameters from its numbers, the context first. (No `From`: neither the array nor the record is of this crate.)
ghost use Rattle.std.specs.Prelude.{◌≡◌};
ghost use Rattle.segmentation_numbers.specs.Held.{held_segmentation};
ghost use Rattle.segmentation_numbers.specs.Numbers.{segmentation_context, segmentation_params};

use crate::place;
use numbers::*;
use segmentation::record::*;

pub fn segmentation_context(n: &[i32; 133]) -> SegmentationContext
    ensures { result ≡ segmentation_context n.now }
{
    SegmentationContext {
        primary_ref_frame: natural(n, place::PRIMARY_REF_FRAME),
    }
}

fn feature_enabled(n: &[i32; 133]) -> [bool; 64]
    ensures { result ≡ (segmentation_params n.now).feature_enabled }
{
    let mut a = [false; 64];
    for i in 0..64 {
        a[i] = flag(n, place::FEATURE_ENABLED + i);
    }
    a
}

fn feature_data(n: &[i32; 133]) -> [i16; 64]
    ensures { result ≡ (held_segmentation (segmentation_params n.now)).feature_data }
{
    let mut a = [0i16; 64];
    for i in 0..64 {
        a[i] = int16(n, place::FEATURE_DATA + i);
    }
    a
}

pub fn segmentation_params(n: &[i32; 133]) -> SegmentationParams
    ensures { result ≡ held_segmentation (segmentation_params n.now) }
{
    SegmentationParams {
        segmentation_enabled: flag(n, place::SEGMENTATION_ENABLED),
        segmentation_update_map: flag(n, place::SEGMENTATION_UPDATE_MAP),
        segmentation_temporal_update: flag(n, place::SEGMENTATION_TEMPORAL_UPDATE),
        segmentation_update_data: flag(n, place::SEGMENTATION_UPDATE_DATA),
        feature_enabled: feature_enabled(n),
        feature_data: feature_data(n),
    }
}
