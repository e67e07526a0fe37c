// The room for a part at a place. A part is walked once, over an array that has the bytes around the place; the array's bytes go back where the whole part is good.
ghost use Rattle.std.specs.Prelude.{◌≡◌, ◌%◌};
ghost use Rattle.parts.specs.Settled.{lent, Settles};

use bits::answer::*;

// What such an array has beside the part's most bits, in whole words of eight bytes: the bits before the place, and a store of eight bytes behind the part.
pub const SPARE_BITS: usize = 7 + 64 + 63;

// (The five writers lend, walk and settle: one function over the walk as a closure would have to be told each walk's contract once more.)

// The bytes of `out` from that of the place on, as many as both have, at the start of `near`.
pub fn lend(out: &[u8], place: u32, near: &mut [u8])
    ensures { near.new ≡ lent out.now place near.old }
{
    let first = (place / 8) as usize;
    let len = out.len();
    if len <= first {
        return;
    }
    if len - first < near.len() {
        bits::slice::copy(&out[first..len], near);
        return;
    }
    let stop = first + near.len();
    bits::slice::copy(&out[first..stop], near);
}

// Where a part begins in that array.
pub fn start(place: u32) -> usize
    ensures { result ≡ place % 8 }
{
    (place % 8) as usize
}

// What a walk over that array came to: its refusal, or the array's bytes up to the bit `at` put back into `out`.
pub fn settle(
    walk: Result<(), Refusal>,
    at: usize,
    place: u32,
    near: &[u8],
    out: &mut [u8],
) -> Result<u32, Refusal>
    ensures { Settles walk at place near.now out.old result out.new }
{
    let len = out.len();
    if 65536 < len {
        return Err(Refusal::Long);
    }
    walk?;
    let room = near.len();
    if 65536 < room {
        return Err(Refusal::Long);
    }
    if room * 8 < at {
        return Err(Refusal::Long);
    }
    let first = (place / 8) as usize;
    let count = (at + 7) / 8;
    let end = first * 8 + at;
    if len * 8 < end {
        return Err(Refusal::Short((first + count) as u32));
    }
    bits::slice::copy(&near[..count], &mut out[first..]);
    Ok(end as u32)
}
