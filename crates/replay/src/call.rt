// The call that a case line asks for.
use cases::signed::signed;
use cases::word::{PartReader, Writer};
use friscurella::calls::*;
use lines::answer::Text;
use lines::parse::{Words, hex};
use sequence_reader::place;

fn td(record: &[u32; place::NUMBERS], out: &mut [u8], answer: &mut [u32; 4]) -> u32 {
    let r = [
        record[place::OBU_TYPE],
        record[place::EXTENSION_FLAG],
        record[place::HAS_SIZE_FIELD],
        record[place::TEMPORAL_ID],
        record[place::SPATIAL_ID],
    ];
    friscurella_write_temporal_delimiter(&r, out, answer)
}

fn written(
    writer: Writer,
    record: &[u32; place::NUMBERS],
    place: u32,
    out: &mut [u8],
    answer: &mut [u32; 4],
) -> u32 {
    match writer {
        Writer::Seq => friscurella_write_sequence_header(record, out, answer),
        Writer::Td => td(record, out, answer),
        Writer::Quant => {
            friscurella_write_quantization_params(&signed(record), place, out, answer)
        }
        Writer::Seg => {
            friscurella_write_segmentation_params(&signed(record), place, out, answer)
        }
        Writer::Lf => { friscurella_write_loop_filter_params(&signed(record), place, out, answer) }
        Writer::Cdef => { friscurella_write_cdef_params(&signed(record), place, out, answer) }
        Writer::Lr => { friscurella_write_lr_params(&signed(record), place, out, answer) }
    }
}

// Answers a writer's line, whose other words are left; none, if it is malformed.
pub fn write(writer: Writer, words: &mut Words, buffer: &mut [u8], out: &mut Text) -> Option<()> {
    let mut record = [0u32; place::NUMBERS];
    cases::fields::numbers(writer, words, &mut record)?;
    let given = cases::settings::settings(*words, false, writer.has_place(), buffer)?;
    let buffer = buffer.get_mut(..given.size)?;
    let mut answer = [0u32; 4];
    written(writer, &record, given.place, buffer, &mut answer);
    crate::show::written(out, &answer, buffer);
    Some(())
}

// The arms stay apart: the borrow checker covers no bound `FnOnce(&mut [i32; N], ..)`, by which one function would make any of the calls.
fn part(
    reader: PartReader,
    record: &[u32; place::NUMBERS],
    place: u32,
    input: &[u8],
    out: &mut Text,
) {
    let mut answer = [0u32; 4];
    match reader {
        PartReader::Quant => {
            let mut r = signed(record);
            friscurella_read_quantization_params(input, place, &mut r, &mut answer);
            crate::show::params(out, &answer, &r[2..]);
        }
        PartReader::Seg => {
            let mut r = signed(record);
            friscurella_read_segmentation_params(input, place, &mut r, &mut answer);
            crate::show::params(out, &answer, &r[1..]);
        }
        PartReader::Lf => {
            let mut r = signed(record);
            let previous = signed(&record[3..]);
            friscurella_read_loop_filter_params(input, place, &previous, &mut r, &mut answer);
            crate::show::params(out, &answer, &r[3..]);
        }
        PartReader::Cdef => {
            let mut r = signed(record);
            friscurella_read_cdef_params(input, place, &mut r, &mut answer);
            crate::show::params(out, &answer, &r[4..]);
        }
        PartReader::Lr => {
            let mut r = signed(record);
            friscurella_read_lr_params(input, place, &mut r, &mut answer);
            crate::show::params(out, &answer, &r[7..]);
        }
    }
}

// Answers the line of a part's reader, whose other words are left; none, if it is malformed.
pub fn read_part(
    reader: PartReader,
    words: &mut Words,
    buffer: &mut [u8],
    out: &mut Text,
) -> Option<()> {
    let mut record = [0u32; place::NUMBERS];
    cases::fields::context(reader, words, &mut record)?;
    let given = cases::settings::settings(*words, true, true, buffer)?;
    let input = buffer.get(..given.size)?;
    part(reader, &record, given.place, input, out);
    Some(())
}

// A reader's input, in hex, and nothing behind it.
fn input<'b>(words: &mut Words, buffer: &'b mut [u8]) -> Option<&'b [u8]> {
    let size = hex(words.next().unwrap_or(b""), buffer)?;
    if words.next().is_some() {
        return None;
    }
    buffer.get(..size)
}

pub fn read(words: &mut Words, buffer: &mut [u8], out: &mut Text) -> Option<()> {
    let input = input(words, buffer)?;
    let mut record = [0u32; place::NUMBERS];
    let mut answer = [0u32; 4];
    friscurella_read_sequence_header(input, &mut record, &mut answer);
    crate::show::record(out, &answer, &record);
    Some(())
}

pub fn payload(words: &mut Words, buffer: &mut [u8], out: &mut Text) -> Option<()> {
    let input = input(words, buffer)?;
    let mut answer = [0u32; 2];
    friscurella_payload(input, &mut answer);
    crate::show::part(out, &answer);
    Some(())
}
