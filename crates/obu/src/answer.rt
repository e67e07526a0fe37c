// What a public writer of an OBU answers, known before the slice is written.
ghost use Rattle.std.specs.Prelude.{◌≡◌};
ghost use Rattle.obu.specs.Writer.{verdict};

use bits::answer::*;

// The answer, from that of a walk that leaves the slice alone, the bits that it came to and the length of the slice: only where it is `Ok` is the slice written.
pub fn verdict(walk: Result<(), Refusal>, bits: usize, len: usize) -> Result<u32, Refusal>
    ensures { result ≡ verdict walk bits len }
{
    if 65536 < len {
        return Err(Refusal::Long);
    }
    walk?;
    let needed = bits / 8 + (bits % 8 + 7) / 8;
    if len < needed {
        return Err(Refusal::Short(capped(needed)));
    }
    Ok(capped(needed))
}
