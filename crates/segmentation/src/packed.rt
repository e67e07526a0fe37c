// One feature, written as one field: a flag that is set, and the value behind it.
ghost use Rattle.std.specs.Prelude.{◌≡◌, ◌<◌, ◌≤◌, ◌^◌};
ghost use Rattle.writer.specs.Walked.{Walked};
ghost use Rattle.segmentation.specs.Packed.{value_bits, value_code};
ghost use Rattle.segmentation.specs.Segmentation.{feature};

use crate::feature::*;
use bits::answer::*;
use bits::element::FEATURE_DATA;
use writer::BitWriter;
use writer::number::su_code;

// The bits of a feature's value: with its sign, where it has one.
fn value_bits(j: usize) -> u32
    requires { j < 8 }
    ensures value { result ≡ value_bits j }
    ensures upper_bound { result ≤ 9 }
{
    let bits = feature_bits(j);
    if j < 5 { bits + 1 } else { bits }
}

// The value, which is held within its limits, as the number that those bits are.
fn value_code(j: usize, v: i16) -> u32
    requires { j < 8 }
    ensures value { result ≡ value_code j v }
    ensures upper_bound { result < 2 ^ value_bits j }
{
    let limit = feature_max(j);
    if j < 5 {
        return su_code(i32::from(v.clamp(-limit, limit)), value_bits(j));
    }
    v.clamp(0, limit) as u32
}

pub fn feature(w: &mut BitWriter, enabled: bool, v: i16, i: usize) -> Result<(), Refusal>
    requires { i < 64 }
    ensures { Walked ((feature i).enc (enabled, v)) w.old w.new result }
{
    if enabled {
        let bits = value_bits(i % 8);
        let code = value_code(i % 8, v);
        return w.f(bits + 1, (1u32 << bits) + code, FEATURE_DATA, i as u8);
    }
    w.flag(false)
}
