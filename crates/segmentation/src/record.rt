// 5.9.14 segmentation_params: its record, and what it goes by.

// Eight features of eight segments, segment by segment.
#[derive(Clone, Copy)]
pub struct SegmentationParams {
    pub segmentation_enabled: bool,
    pub segmentation_update_map: bool,
    pub segmentation_temporal_update: bool,
    pub segmentation_update_data: bool,
    pub feature_enabled: [bool; 64],
    pub feature_data: [i16; 64],
}

// What the frame header says: 7 is no primary reference, and any other number is one.
#[derive(Clone, Copy)]
pub struct SegmentationContext {
    pub primary_ref_frame: u32,
}

// The most bits that the part takes, whatever its record and what it goes by: crates/room.
pub const SEGMENTATION_PARAMS_MAX_BITS: usize = 388;
