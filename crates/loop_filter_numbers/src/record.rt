// The record of the loop filter's parameters from its numbers, the context first. (No `From`: neither the array nor the record is of this crate.)
ghost use Rattle.std.specs.Prelude.{◌≡◌};
ghost use Rattle.loop_filter_numbers.specs.Numbers.{loop_filter_context, loop_filter_params};

use crate::place;
use loop_filter::record::*;
use numbers::*;

pub fn loop_filter_context(n: &[i32; 20]) -> LoopFilterContext
    ensures { result ≡ loop_filter_context n.now }
{
    LoopFilterContext {
        coded_lossless: flag(n, place::CODED_LOSSLESS),
        allow_intrabc: flag(n, place::ALLOW_INTRABC),
        planes: natural(n, place::PLANES),
    }
}

fn levels(n: &[i32; 20]) -> [u32; 4]
    ensures { result ≡ (loop_filter_params n.now).loop_filter_level }
{
    [
        natural(n, place::LOOP_FILTER_LEVEL),
        natural(n, place::LOOP_FILTER_LEVEL + 1),
        natural(n, place::LOOP_FILTER_LEVEL + 2),
        natural(n, place::LOOP_FILTER_LEVEL + 3),
    ]
}

fn ref_deltas(n: &[i32; 20]) -> [i32; 8]
    ensures { result ≡ (loop_filter_params n.now).loop_filter_ref_deltas }
{
    let mut a = [0i32; 8];
    for i in 0..8 {
        a[i] = number(n, place::LOOP_FILTER_REF_DELTAS + i);
    }
    a
}

fn mode_deltas(n: &[i32; 20]) -> [i32; 2]
    ensures { result ≡ (loop_filter_params n.now).loop_filter_mode_deltas }
{
    [
        number(n, place::LOOP_FILTER_MODE_DELTAS),
        number(n, place::LOOP_FILTER_MODE_DELTAS + 1),
    ]
}

pub fn loop_filter_params(n: &[i32; 20]) -> LoopFilterParams
    ensures { result ≡ loop_filter_params n.now }
{
    LoopFilterParams {
        loop_filter_level: levels(n),
        loop_filter_sharpness: natural(n, place::LOOP_FILTER_SHARPNESS),
        loop_filter_delta_enabled: flag(n, place::LOOP_FILTER_DELTA_ENABLED),
        loop_filter_delta_update: flag(n, place::LOOP_FILTER_DELTA_UPDATE),
        loop_filter_ref_deltas: ref_deltas(n),
        loop_filter_mode_deltas: mode_deltas(n),
    }
}
