// The record of the CDEF parameters from its numbers, the context first. (No `From`: neither the array nor the record is of this crate.)
ghost use Rattle.std.specs.Prelude.{◌≡◌, ◌≤◌};
ghost use Rattle.cdef_numbers.specs.Numbers.{cdef_context, strengths, cdef_params};

use crate::place;
use cdef::record::*;
use numbers::*;

pub fn cdef_context(n: &[i32; 38]) -> CdefContext
    ensures { result ≡ cdef_context n.now }
{
    CdefContext {
        coded_lossless: flag(n, place::CODED_LOSSLESS),
        allow_intrabc: flag(n, place::ALLOW_INTRABC),
        enable_cdef: flag(n, place::ENABLE_CDEF),
        planes: natural(n, place::PLANES),
    }
}

// Eight strengths from a place on.
fn strengths(n: &[i32; 38], at: usize) -> [u32; 8]
    requires { at ≤ 30 }
    ensures { result ≡ strengths n.now at }
{
    let mut a = [0u32; 8];
    for i in 0..8 {
        a[i] = natural(n, at + i);
    }
    a
}

pub fn cdef_params(n: &[i32; 38]) -> CdefParams
    ensures { result ≡ cdef_params n.now }
{
    let cdef_y_pri_strength = strengths(n, place::CDEF_Y_PRI_STRENGTH);
    let cdef_y_sec_strength = strengths(n, place::CDEF_Y_SEC_STRENGTH);
    let cdef_uv_pri_strength = strengths(n, place::CDEF_UV_PRI_STRENGTH);
    let cdef_uv_sec_strength = strengths(n, place::CDEF_UV_SEC_STRENGTH);
    CdefParams {
        cdef_bits: natural(n, place::CDEF_BITS),
        cdef_damping: natural(n, place::CDEF_DAMPING),
        cdef_y_pri_strength,
        cdef_y_sec_strength,
        cdef_uv_pri_strength,
        cdef_uv_sec_strength,
    }
}
