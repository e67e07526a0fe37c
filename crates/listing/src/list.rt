// The public call.
use crate::color::color_config;
use crate::frame::*;
use crate::obu_rows::*;
use crate::points::*;
use crate::refusal::refusal;
use crate::row::Listing;
use crate::timing::timing;
use crate::tools::*;
use obu::header::ObuHeader;
use reader::BitReader;
use sequence_reader::place;
use sequence_reader::read::read_sequence_header;
use std::io;

// The timing and the operating points.
fn general(l: &mut Listing<impl Print>, n: &[u32; place::NUMBERS]) -> io::Result<()> {
    if n[place::REDUCED_STILL_PICTURE_HEADER] != 0 {
        return reduced_points(l);
    }
    timing(l, n)?;
    points(l, n)
}

// 5.5.1; the conditions of its fields are those of the record that was read.
fn sequence_header_obu(l: &mut Listing<impl Print>, n: &[u32; place::NUMBERS]) -> io::Result<()> {
    l.f(3, b"seq_profile")?;
    l.flag(b"still_picture")?;
    l.flag(b"reduced_still_picture_header")?;
    general(l, n)?;
    frame_size(l, n)?;
    frame_ids(l, n)?;
    block_tools(l)?;
    inter_tools(l, n)?;
    filter_tools(l)?;
    color_config(l, n)?;
    l.flag(b"film_grain_params_present")
}

fn sequence_header(l: &mut Listing<impl Print>, n: &[u32; place::NUMBERS]) -> io::Result<()> {
    l.heading()?;
    obu_header(l, n[place::EXTENSION_FLAG] != 0)?;
    obu_size(l, n[place::HAS_SIZE_FIELD] != 0)?;
    sequence_header_obu(l, n)?;
    trailing_bits(l)
}

// 5.6: the header of a temporal delimiter, which has type 2 and a size of 0 if flagged; none if `input` is none.
fn delimiter_header(input: &[u8]) -> Option<ObuHeader> {
    let mut r = BitReader::new(input, 0);
    let header = obu::read::obu_header(&mut r, 2).ok()?;
    obu::read::obu_size(&mut r, header.has_size_field).ok()?;
    if r.rest() != 0 {
        return None;
    }
    Some(header)
}

fn temporal_delimiter(l: &mut Listing<impl Print>, header: ObuHeader) -> io::Result<()> {
    l.heading()?;
    obu_header(l, header.extension_flag)?;
    obu_size(l, header.has_size_field)
}

// One OBU, the whole of `input`.
pub fn list(rt: &impl Print, input: &[u8]) -> io::Result<()> {
    let mut l = Listing::new(rt, input, 0);
    if let Some(header) = delimiter_header(input) {
        return temporal_delimiter(&mut l, header);
    }
    let mut n = [0u32; place::NUMBERS];
    match read_sequence_header(input, &mut n) {
        Ok(()) => sequence_header(&mut l, &n),
        Err(r) => refusal(rt, r),
    }
}
