// The public calls on OBUs once more: each function has the contract of the call of its name, and does nothing but call it. The wrong programs in
// must-fail/ are other bodies: what a contract rules out is tried here, where a try takes seconds.
#![tactic(auto)]

ghost use Rattle.obu.specs.Writer.{Writes};
ghost use Rattle.obu.specs.Delimiter.{temporal_delimiter, IsDelimiter, Tells};
ghost use Rattle.sequence.specs.Sequence.{sequence_header};
ghost use Rattle.sequence_reader.specs.Reader.{Answers};
ghost use Rattle.sequence_reader.specs.Payload.{Hands};

use bits::answer::Refusal;
use obu::header::ObuHeader;
use sequence::record::SequenceHeaderObu;
use sequence_reader::place;

pub fn write_sequence_header(record: SequenceHeaderObu, out: &mut [u8]) -> Result<u32, Refusal>
    ensures { Writes (sequence_header.enc «record») out.old result out.new }
{
    sequence_writer::write::write_sequence_header(record, out)
}

pub fn write_temporal_delimiter(header: ObuHeader, out: &mut [u8]) -> Result<u32, Refusal>
    ensures { Writes (temporal_delimiter header) out.old result out.new }
{
    obu::delimiter::write_temporal_delimiter(header, out)
}

pub fn is_temporal_delimiter(input: &[u8]) -> bool
    ensures { Tells result (IsDelimiter input.now) }
{
    obu::delimiter::is_temporal_delimiter(input)
}

pub fn read_sequence_header(
    input: &[u8],
    numbers: &mut [u32; place::NUMBERS],
) -> Result<(), Refusal>
    ensures { Answers input.now numbers.old result numbers.new }
{
    sequence_reader::read::read_sequence_header(input, numbers)
}

pub fn payload(input: &[u8]) -> &[u8]
    ensures { Hands input.entry result }
{
    sequence_reader::read::payload(input)
}
