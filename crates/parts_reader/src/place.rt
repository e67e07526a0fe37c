// Where a part's reading begins.
ghost use Rattle.parts_reader.specs.Reading.{Begins};

use bits::answer::Refusal;
use reader::BitReader;

// At the bit `place` of `input`, unless the slice is too long or ends before it.
#[tactic(auto, using(crate::proofs::Telling::beginnings))]
pub fn begin(input: &[u8], place: u32) -> Result<BitReader<'_>, Refusal>
    ensures { Begins (record { bytes = input.entry; at = place }) result }
{
    let length = input.len();
    if 65536 < length {
        return Err(Refusal::Long);
    }
    let at = place as usize;
    if length * 8 < at {
        return Err(Refusal::Ends);
    }
    Ok(BitReader::new(input, at))
}
