// 5.5.1 and 5.6 from numbers: the records that they are, and the OBUs that they write.
#![tactic(auto)]

mod header; // header.rt: the record of the OBU header
mod points; // points.rt: the operating points
mod record; // record.rt: the sequence header's record

ghost use Rattle.obu.specs.Delimiter.{temporal_delimiter};
ghost use Rattle.obu.specs.Writer.{Writes};
ghost use Rattle.sequence.specs.Sequence.{sequence_header};
ghost use Rattle.sequence_reader.specs.Layouts.{header_of, record_of};

use crate::header::obu_header;
use crate::record::sequence_header;
use bits::answer::Refusal;
use obu::delimiter::write_temporal_delimiter;
use sequence_reader::place;
use sequence_writer::write::write_sequence_header;

pub fn write_sequence_numbers(
    record: &[u32; place::NUMBERS],
    out: &mut [u8],
) -> Result<u32, Refusal>
    ensures { Writes (sequence_header.enc (record_of «record».now)) out.old result out.new }
{
    write_sequence_header(sequence_header(record), out)
}

pub fn write_delimiter_numbers(record: &[u32; 5], out: &mut [u8]) -> Result<u32, Refusal>
    ensures { Writes (temporal_delimiter (header_of «record».now)) out.old result out.new }
{
    let h = obu_header(
        record[place::OBU_TYPE],
        record[place::EXTENSION_FLAG],
        record[place::HAS_SIZE_FIELD],
        record[place::TEMPORAL_ID],
        record[place::SPATIAL_ID],
    );
    write_temporal_delimiter(h, out)
}
