// Where each number of the record stands: the context first, and of an array its first number.
pub const ALL_LOSSLESS: usize = 0;

pub const ALLOW_INTRABC: usize = 1;

pub const ENABLE_RESTORATION: usize = 2;

pub const PLANES: usize = 3;

pub const USE_128X128_SUPERBLOCK: usize = 4;

pub const SUBSAMPLING_X: usize = 5;

pub const SUBSAMPLING_Y: usize = 6;

pub const FRAME_RESTORATION_TYPE: usize = 7;

pub const USES_LR: usize = 10;

pub const USES_CHROMA_LR: usize = 11;

pub const LR_UNIT_SHIFT: usize = 12;

pub const LR_UV_SHIFT: usize = 13;
