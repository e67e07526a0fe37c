// Where each number of the record stands: the context first, and of an array its first number.
pub const CODED_LOSSLESS: usize = 0;

pub const ALLOW_INTRABC: usize = 1;

pub const PLANES: usize = 2;

pub const LOOP_FILTER_LEVEL: usize = 3;

pub const LOOP_FILTER_SHARPNESS: usize = 7;

pub const LOOP_FILTER_DELTA_ENABLED: usize = 8;

pub const LOOP_FILTER_DELTA_UPDATE: usize = 9;

pub const LOOP_FILTER_REF_DELTAS: usize = 10;

pub const LOOP_FILTER_MODE_DELTAS: usize = 18;
