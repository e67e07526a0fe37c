// Where each number of the record stands: the context first, and of an array its first number.
pub const CODED_LOSSLESS: usize = 0;

pub const ALLOW_INTRABC: usize = 1;

pub const ENABLE_CDEF: usize = 2;

pub const PLANES: usize = 3;

pub const CDEF_BITS: usize = 4;

pub const CDEF_DAMPING: usize = 5;

pub const CDEF_Y_PRI_STRENGTH: usize = 6;

pub const CDEF_Y_SEC_STRENGTH: usize = 14;

pub const CDEF_UV_PRI_STRENGTH: usize = 22;

pub const CDEF_UV_SEC_STRENGTH: usize = 30;
