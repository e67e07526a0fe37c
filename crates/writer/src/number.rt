// Signed numbers: their codes in two's complement, and their lengths.
ghost use Rattle.std.specs.Prelude.{◌≡◌, ◌+◌, ◌*◌, ◌≤◌, int_lt, pos};
ghost use Rattle.std.specs.Int.Signed.{mag};
ghost use Rattle.bits.specs.Bits.{bit};
ghost use Rattle.bits.specs.Codes.{su_out};
ghost use Rattle.bits.specs.Widths.{signed_length};

use bits::number::*;

// The place of v in the row 0, -1, 1, -2, 2, ..: n bits of two's complement hold its first 2^n numbers.
fn zigzag(v: i32) -> u32
    ensures { result ≡ mag v * 2 + bit (int_lt v (pos 0)) }
{
    let w = v.cast_unsigned();
    if v < 0 { !w * 2 + 1 } else { w * 2 }
}

// v in `width` bits of two's complement, or 2^width where it is out of range.
pub fn su_code(v: i32, width: u32) -> u32
    requires { width ≤ 32 }
    ensures { result ≡ su_out width v }
{
    let all = pow2(width);
    if (zigzag(v) as u64) < all {
        (v.cast_unsigned() as u64 % all) as u32
    } else {
        all as u32
    }
}

// The least width of two's complement that holds v.
pub fn signed_length(v: i32) -> u8
    ensures { result ≡ signed_length v }
{
    bit_length(zigzag(v))
}
