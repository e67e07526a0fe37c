// The calls for C on OBUs once more: each function has the contract of the call of its name, and does nothing but call it. The wrong programs in
// must-fail/ are other bodies: what a contract rules out is tried here, where a try takes seconds.
#![tactic(auto)]

ghost use Rattle.std.specs.Prelude.{◌≡◌};
ghost use Rattle.obu.specs.Delimiter.{temporal_delimiter, IsDelimiter, Tells};
ghost use Rattle.obu.specs.Demand3.{read};
ghost use Rattle.sequence.specs.Sequence.{sequence_header};
ghost use Rattle.sequence_reader.specs.Layouts.{header_of, record_of};
ghost use Rattle.sequence_reader.specs.Payload.{payload_part};
ghost use Rattle.friscurella.specs.Calls.{version, lent, wrote_obu, was_read, part_numbers};

use sequence_reader::place;

pub fn friscurella_write_sequence_header(
    record: &[u32; place::NUMBERS],
    out: &mut [u8],
    answer: &mut [u32; 4],
) -> u32
    ensures { lent result answer.new out.new ≡ wrote_obu (sequence_header.enc (record_of «record».now)) out.old }
{
    friscurella::calls::friscurella_write_sequence_header(record, out, answer)
}

pub fn friscurella_write_temporal_delimiter(
    record: &[u32; 5],
    out: &mut [u8],
    answer: &mut [u32; 4],
) -> u32
    ensures { lent result answer.new out.new ≡ wrote_obu (temporal_delimiter (header_of «record».now)) out.old }
{
    friscurella::calls::friscurella_write_temporal_delimiter(record, out, answer)
}

pub fn friscurella_read_sequence_header(
    input: &[u8],
    record: &mut [u32; place::NUMBERS],
    answer: &mut [u32; 4],
) -> u32
    ensures { lent result answer.new «record».new ≡ was_read (read sequence_header input.now) «record».old }
{
    friscurella::calls::friscurella_read_sequence_header(input, record, answer)
}

pub fn friscurella_payload(input: &[u8], answer: &mut [u32; 2])
    ensures { answer.new ≡ part_numbers (payload_part input.now) }
{
    friscurella::calls::friscurella_payload(input, answer);
}

pub fn friscurella_is_temporal_delimiter(input: &[u8]) -> bool
    ensures { Tells result (IsDelimiter input.now) }
{
    friscurella::calls::friscurella_is_temporal_delimiter(input)
}

pub fn friscurella_version() -> u32
    ensures { result ≡ version }
{
    friscurella::calls::friscurella_version()
}
