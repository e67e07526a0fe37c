// 5.9.19 cdef_params.
ghost use Rattle.std.specs.Prelude.{◌≤◌};

use crate::answered;
use cdef_numbers::place;
use cdef_reader::read::read_cdef_numbers;
use listing::row::Listing;
use std::io;

fn cdef_off(l: &Listing<impl Print>) -> io::Result<()> {
    l.inferred(b"cdef_bits", 0)?;
    l.inferred_at(b"cdef_y_pri_strength", 0, 0)?;
    l.inferred_at(b"cdef_y_sec_strength", 0, 0)?;
    l.inferred_at(b"cdef_uv_pri_strength", 0, 0)?;
    l.inferred_at(b"cdef_uv_sec_strength", 0, 0)?;
    l.inferred(b"CdefDamping", 3)
}

// A secondary strength of 4 is coded as 3.
fn secondary(l: &mut Listing<impl Print>, name: &[u8], strength: i32, i: usize) -> io::Result<()> {
    l.f_at(2, name, i)?;
    if strength == 4 {
        l.inferred_at(name, i, 4)?;
    }
    Ok(())
}

fn luma(l: &mut Listing<impl Print>, strength: i32, i: usize) -> io::Result<()> {
    l.f_at(4, b"cdef_y_pri_strength", i)?;
    secondary(l, b"cdef_y_sec_strength", strength, i)
}

fn chroma(l: &mut Listing<impl Print>, strength: i32, i: usize) -> io::Result<()> {
    l.f_at(4, b"cdef_uv_pri_strength", i)?;
    secondary(l, b"cdef_uv_sec_strength", strength, i)
}

// How many strengths of each kind are coded.
fn count(cdef_bits: i32) -> usize
    ensures { result ≤ 8 }
{
    match cdef_bits {
        0 => 1,
        1 => 2,
        2 => 4,
        _ => 8,
    }
}

fn cdef_on(l: &mut Listing<impl Print>, n: &[i32; 38]) -> io::Result<()> {
    l.f(2, b"cdef_damping_minus_3")?;
    l.inferred(b"CdefDamping", n[place::CDEF_DAMPING])?;
    l.f(2, b"cdef_bits")?;
    for i in 0..count(n[place::CDEF_BITS]) {
        luma(l, n[place::CDEF_Y_SEC_STRENGTH + i], i)?;
        if n[place::PLANES] != 1 {
            chroma(l, n[place::CDEF_UV_SEC_STRENGTH + i], i)?;
        }
    }
    Ok(())
}

fn cdef_params(l: &mut Listing<impl Print>, n: &[i32; 38]) -> io::Result<()> {
    if n[place::CODED_LOSSLESS] != 0 || n[place::ALLOW_INTRABC] != 0 || n[place::ENABLE_CDEF] == 0 {
        cdef_off(l)
    } else {
        cdef_on(l, n)
    }
}

// The part from the bit `place` of `input` on, by the context that stands in the numbers.
pub fn list(rt: &impl Print, input: &[u8], place: u32, n: &mut [i32; 38]) -> io::Result<()> {
    let answer = read_cdef_numbers(input, place, n);
    answered(rt, input, place, answer, |l| cdef_params(l, n))
}
