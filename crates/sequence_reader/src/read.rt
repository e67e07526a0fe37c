// The public calls: a sequence header OBU, read, and its payload.
ghost use Rattle.std.specs.Prelude.{◌≡◌};
ghost use Rattle.sequence_reader.specs.Reader.{Answers, Holds};
ghost use Rattle.sequence_reader.specs.Payload.{behind, payload_part, Hands};

use crate::body::sequence_header_obu;
use crate::place;
use bits::answer::Refusal;
use obu::read::*;
use reader::BitReader;

// A part of the input: its first byte, and how many it has.
#[derive(Clone, Copy)]
pub struct Part {
    pub place: usize,
    pub size: usize,
}

// One OBU, the whole of `input`, into n.
#[tactic(auto, using(crate::proofs::Answering::answerings))]
fn one_obu(input: &[u8], n: &mut [u32; place::NUMBERS]) -> Result<(), Refusal>
    ensures { Holds input.now n.old result n.new }
{
    if 65536 < input.len() {
        return Err(Refusal::Long);
    }
    let mut r = BitReader::new(input, 0);
    let header = obu_header(&mut r, 1)?;
    obu_size(&mut r, header.has_size_field)?;
    n[place::OBU_TYPE] = header.obu_type;
    n[place::EXTENSION_FLAG] = header.extension_flag as u32;
    n[place::HAS_SIZE_FIELD] = header.has_size_field as u32;
    n[place::TEMPORAL_ID] = header.temporal_id;
    n[place::SPATIAL_ID] = header.spatial_id;
    sequence_header_obu(&mut r, n)?;
    trailing_bits(&mut r)
}

// One OBU, the whole of `input`: its record's numbers; where it is refused, they are as they were.
#[tactic(auto, using(crate::proofs::Answering::answerings))]
pub fn read_sequence_header(
    input: &[u8],
    numbers: &mut [u32; place::NUMBERS],
) -> Result<(), Refusal>
    ensures { Answers input.now numbers.old result numbers.new }
{
    let mut n = [0u32; place::NUMBERS];
    one_obu(input, &mut n)?;
    *numbers = n;
    Ok(())
}

// The byte behind the size field, or behind the header if there is none; the end where they are refused.
#[tactic(auto, using(crate::proofs::PayloadParts::parts))]
fn behind(input: &[u8]) -> usize
    ensures { result ≡ behind input.now }
{
    let mut r = BitReader::new(input, 0);
    let Ok(header) = obu_header(&mut r, 1) else {
        return input.len();
    };
    let Ok(()) = obu_size(&mut r, header.has_size_field) else {
        return input.len();
    };
    input.len() - r.rest() / 8
}

// Which part of `input` the payload is: all behind the size field where the OBU is accepted, and the first zero bytes where it is refused.
#[tactic(auto, using(crate::proofs::PayloadParts::parts))]
pub fn payload_part(input: &[u8]) -> Part
    ensures { result ≡ payload_part input.now }
{
    let mut n = [0u32; place::NUMBERS];
    let Ok(()) = one_obu(input, &mut n) else {
        return Part { place: 0, size: 0 };
    };
    let place = behind(input);
    Part {
        place,
        size: input.len() - place,
    }
}

// The payload, as a part of `input`.
#[tactic(auto, using(crate::proofs::PayloadParts::handed))]
pub fn payload(input: &[u8]) -> &[u8]
    ensures { Hands input.entry result }
{
    let p = payload_part(input);
    let at = p.place;
    let end = at + p.size;
    &input[at..end]
}
