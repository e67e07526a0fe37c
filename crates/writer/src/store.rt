// Bits stored in bytes, most significant first. What falls outside the lent slice is left out.
ghost use Rattle.std.specs.Prelude.{◌≡◌, ◌++◌, ◌+◌, ◌*◌, ◌/◌, ◌≤◌, ◌<◌, ℕ, slice_index};
ghost use Rattle.bits.specs.Bits.{put, set_bit, to_bits, from, end};
ghost use Rattle.writer.specs.Blend.{blend};

use bits::answer::LIMIT;
use bits::number::pow2;

// w with the `width` bits above its d low ones made the `width` low bits of v.
fn blend(w: u64, width: u32, d: u32, v: u64) -> u64
    requires { (width ≤ 32) × (d < 64) × (width + d ≤ 64) }
    ensures { result ≡ blend w width d v }
{
    let p = pow2(width);
    let old = (w >> d) % p;
    let new = v % p;
    w - (old << d) + (new << d)
}

// The bit at a place made b.
pub fn put_bit(out: &mut [u8], at: usize, b: bool)
    ensures { out.new ≡ set_bit out.old at b }
{
    let i = at / 8;
    if at < LIMIT && i < out.len() {
        out[i] = blend(out[i] as u64, 1, 7 - (at % 8) as u32, b as u64) as u8;
    }
}

// The `width` low bits of value, one by one. (A walk that only counts goes over an empty slice: it leaves at once.)
// Out of line, so that `put` stays small enough to be inlined.
#[inline(never)]
fn put_bits(out: &mut [u8], at: usize, width: u32, value: u32)
    ensures { out.new ≡ put out.old at (to_bits width value) }
{
    if out.len() <= at / 8 {
        return;
    }
    for (place, left) in (at..LIMIT).zip((0..width).rev()) {
        put_bit(out, place, value.checked_shr(left).unwrap_or(0) % 2 == 1);
    }
}

// The number that the eight bytes from i on are.
fn window(s: &[u8], i: usize) -> u64
    requires { i * 8 + 64 ≤ end s.now }
    ensures bits { from s.now (i * 8) ≡ to_bits 64 result ++ from s.now (i * 8 + 64) }
    ensures bytes { (k : ℕ) → slice_index s.now k < 256 }
{
    u64::from_be_bytes(*s[i..].first_chunk::<8>().unwrap())
}

// The `width` low bits of value, in the eight bytes from that of the place on: all at once.
fn put_window(out: &mut [u8], at: usize, width: u32, value: u32)
    requires { (0 < width) × (width ≤ 32) × (at / 8 * 8 + 64 ≤ end out.old) }
    ensures { out.new ≡ put out.old at (to_bits width value) }
{
    let i = at / 8;
    let d = 64 - (at % 8) as u32 - width;
    let w = blend(window(out, i), width, d, value as u64);
    out[i..i + 8].copy_from_slice(&w.to_be_bytes());
}

// The `width` low bits of value are stored from the place `at` on, the top one first.
pub fn put(out: &mut [u8], at: usize, width: u32, value: u32)
    ensures { out.new ≡ put out.old at (to_bits width value) }
{
    if at / 8 + 8 <= out.len() && at < LIMIT - 64 && 0 < width && width <= 32 {
        put_window(out, at, width, value)
    } else {
        put_bits(out, at, width, value)
    }
}
