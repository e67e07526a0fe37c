// Where each number of the record stands: the context first, and of an array its first number.
pub const PRIMARY_REF_FRAME: usize = 0;

pub const SEGMENTATION_ENABLED: usize = 1;

pub const SEGMENTATION_UPDATE_MAP: usize = 2;

pub const SEGMENTATION_TEMPORAL_UPDATE: usize = 3;

pub const SEGMENTATION_UPDATE_DATA: usize = 4;

pub const FEATURE_ENABLED: usize = 5;

pub const FEATURE_DATA: usize = 69;
