// The temporal delimiter (5.6).
ghost use Rattle.std.specs.Prelude.{◌≤◌, length};
ghost use Rattle.writer.specs.Walked.{Walked};
ghost use Rattle.obu.specs.Writer.{Writes};
ghost use Rattle.obu.specs.Delimiter.{temporal_delimiter, octets, delimiter_bytes, IsDelimiter, Tells};

use crate::answer::verdict;
use crate::header::ObuHeader;
use crate::write::*;
use bits::answer::*;
use writer::BitWriter;

// Its walk: a header of type 2 and, if flagged, a size of 0. (In line, with all that it writes: so the writer's place stays out of memory.)
#[inline(always)]
fn temporal_delimiter(w: &mut BitWriter, header: ObuHeader) -> Result<(), Refusal>
    ensures { Walked (temporal_delimiter header) w.old w.new result }
{
    obu_header(w, header, 2)?;
    obu_size(w, header.has_size_field, 0)
}

// A byte string, written at the start of `out`.
fn write_string(string: &[u8], out: &mut [u8]) -> Result<u32, Refusal>
    requires { length string.now ≤ 65536 }
    ensures { Writes (octets string.now) out.old result out.new }
{
    let count = verdict(Ok(()), string.len() * 8, out.len())?;
    bits::slice::copy(string, out);
    Ok(count)
}

// The delimiter without extension, a byte string.
fn write_plain(has_size_field: bool, out: &mut [u8]) -> Result<u32, Refusal>
    ensures { Writes (octets (delimiter_bytes has_size_field)) out.old result out.new }
{
    if has_size_field {
        return write_string(b"\x12\x00", out);
    }
    write_string(b"\x10", out)
}

// The temporal delimiter, written at the start of `out`.
pub fn write_temporal_delimiter(header: ObuHeader, out: &mut [u8]) -> Result<u32, Refusal>
    ensures { Writes (temporal_delimiter header) out.old result out.new }
{
    if header.obu_type == 2 && !header.extension_flag {
        return write_plain(header.has_size_field, out);
    }
    let mut none = BitWriter {
        out: &mut [],
        at: 0,
    };
    let walk = temporal_delimiter(&mut none, header);
    let count = verdict(walk, none.at, out.len())?;
    temporal_delimiter(&mut BitWriter { out, at: 0 }, header)?;
    Ok(count)
}

// Whether the bytes are the temporal delimiter without extension.
pub fn is_temporal_delimiter(input: &[u8]) -> bool
    ensures { Tells result (IsDelimiter input.now) }
{
    if input == b"\x12\x00".as_slice() {
        return true;
    }
    input == b"\x10".as_slice()
}
