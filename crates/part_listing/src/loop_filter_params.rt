// 5.9.11 loop_filter_params. A delta that is not coded is the one before it, and has the mark `previous`.
use crate::{answered, is_set};
use listing::row::Listing;
use loop_filter_numbers::place;
use loop_filter_reader::read::read_loop_filter_numbers;
use std::io;

// A delta that is not coded: the one before it, or the default where the filter is off.
fn uncoded_delta(
    l: &Listing<impl Print>,
    name: &[u8],
    i: usize,
    delta: i32,
    is_on: bool,
) -> io::Result<()> {
    if is_on {
        l.previous_at(name, i, delta)
    } else {
        l.inferred_at(name, i, delta)
    }
}

fn uncoded_deltas(l: &Listing<impl Print>, n: &[i32; 20], is_on: bool) -> io::Result<()> {
    for i in 0..8 {
        let delta = n[place::LOOP_FILTER_REF_DELTAS + i];
        uncoded_delta(l, b"loop_filter_ref_deltas", i, delta, is_on)?;
    }
    for i in 0..2 {
        let delta = n[place::LOOP_FILTER_MODE_DELTAS + i];
        uncoded_delta(l, b"loop_filter_mode_deltas", i, delta, is_on)?;
    }
    Ok(())
}

fn filter_off(l: &Listing<impl Print>, n: &[i32; 20]) -> io::Result<()> {
    l.inferred_at(b"loop_filter_level", 0, 0)?;
    l.inferred_at(b"loop_filter_level", 1, 0)?;
    uncoded_deltas(l, n, false)
}

fn levels(l: &mut Listing<impl Print>, n: &[i32; 20]) -> io::Result<()> {
    l.f_at(6, b"loop_filter_level", 0)?;
    l.f_at(6, b"loop_filter_level", 1)?;
    let is_on = n[place::LOOP_FILTER_LEVEL] != 0 || n[place::LOOP_FILTER_LEVEL + 1] != 0;
    if n[place::PLANES] != 1 && is_on {
        l.f_at(6, b"loop_filter_level", 2)?;
        l.f_at(6, b"loop_filter_level", 3)?;
    }
    Ok(())
}

fn delta(
    l: &mut Listing<impl Print>,
    update: &[u8],
    name: &[u8],
    i: usize,
    old: i32,
) -> io::Result<()> {
    let is_coded = is_set(l);
    l.flag_at(update, i)?;
    if is_coded {
        l.su_at(7, name, i)
    } else {
        l.previous_at(name, i, old)
    }
}

fn deltas(l: &mut Listing<impl Print>, n: &[i32; 20]) -> io::Result<()> {
    for i in 0..8 {
        let old = n[place::LOOP_FILTER_REF_DELTAS + i];
        delta(l, b"update_ref_delta", b"loop_filter_ref_deltas", i, old)?;
    }
    for i in 0..2 {
        let old = n[place::LOOP_FILTER_MODE_DELTAS + i];
        delta(l, b"update_mode_delta", b"loop_filter_mode_deltas", i, old)?;
    }
    Ok(())
}

fn delta_update(l: &mut Listing<impl Print>, n: &[i32; 20]) -> io::Result<()> {
    l.flag(b"loop_filter_delta_update")?;
    if n[place::LOOP_FILTER_DELTA_UPDATE] != 0 {
        deltas(l, n)
    } else {
        uncoded_deltas(l, n, true)
    }
}

fn filter_on(l: &mut Listing<impl Print>, n: &[i32; 20]) -> io::Result<()> {
    levels(l, n)?;
    l.f(3, b"loop_filter_sharpness")?;
    l.flag(b"loop_filter_delta_enabled")?;
    if n[place::LOOP_FILTER_DELTA_ENABLED] != 0 {
        delta_update(l, n)
    } else {
        uncoded_deltas(l, n, true)
    }
}

fn loop_filter_params(l: &mut Listing<impl Print>, n: &[i32; 20]) -> io::Result<()> {
    if n[place::CODED_LOSSLESS] != 0 || n[place::ALLOW_INTRABC] != 0 {
        filter_off(l, n)
    } else {
        filter_on(l, n)
    }
}

// The part from the bit `place` of `input` on, by the context that stands in the numbers, over the ten deltas before it.
pub fn list(
    rt: &impl Print,
    input: &[u8],
    place: u32,
    before: &[i32; 10],
    n: &mut [i32; 20],
) -> io::Result<()> {
    let answer = read_loop_filter_numbers(input, place, before, n);
    answered(rt, input, place, answer, |l| loop_filter_params(l, n))
}
