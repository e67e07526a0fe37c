// The number that a code stands for: the arithmetic of what is read.
ghost use Rattle.std.specs.Prelude.{◌≡◌, ◌<◌, ◌≤◌, ◌^◌};
ghost use Rattle.bits.specs.Codes.{su_in};

use bits::number::pow2;

// The number whose two's complement in `width` bits is v.
pub fn su_value(v: u32, width: u32) -> i32
    requires { (width ≤ 32) × (v < 2 ^ width) }
    ensures { result ≡ su_in width v }
{
    let w = v as u64;
    let all = pow2(width);
    if w * 2 < all {
        return v as i32;
    }
    -1 - (all - (w + 1)) as i32
}
