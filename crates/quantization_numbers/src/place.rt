// Where each number of the record stands: the context first, and of an array its first number.
pub const PLANES: usize = 0;

pub const SEPARATE_UV_DELTA_Q: usize = 1;

pub const BASE_Q_IDX: usize = 2;

pub const DELTA_Q_Y_DC: usize = 3;

pub const DIFF_UV_DELTA: usize = 4;

pub const DELTA_Q_U_DC: usize = 5;

pub const DELTA_Q_U_AC: usize = 6;

pub const DELTA_Q_V_DC: usize = 7;

pub const DELTA_Q_V_AC: usize = 8;

pub const USING_QMATRIX: usize = 9;

pub const QM_Y: usize = 10;

pub const QM_U: usize = 11;

pub const QM_V: usize = 12;
