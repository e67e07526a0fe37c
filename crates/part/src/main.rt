// Lists frame parts: each line of standard input is a case line of a part's reader (docs/CASE-LINES.md). A line that begins with `#` is copied; an empty one is
// passed over.
#![tactic(auto)]

use cases::signed::signed;
use cases::word::{PartReader, Word};
use lines::input::{LineReader, TooLong};
use lines::parse::Words;
use std::io;

// What a part's reader goes by: at most the three numbers of the loop filter's context and the ten deltas before it.
const NUMBERS: usize = 13;

fn bad(rt: &impl Print) -> io::Result<()> {
    rt.write_all(b"bad\n")
}

fn list(
    rt: &impl Print,
    reader: PartReader,
    context: &[u32; NUMBERS],
    place: u32,
    input: &[u8],
) -> io::Result<()> {
    match reader {
        PartReader::Quant => {
            part_listing::quantization_params::list(rt, input, place, &mut signed(context))
        }
        PartReader::Seg => {
            part_listing::segmentation_params::list(rt, input, place, &mut signed(context))
        }
        PartReader::Lf => {
            let before = signed(&context[3..]);
            part_listing::loop_filter_params::list(rt, input, place, &before, &mut signed(context))
        }
        PartReader::Cdef => {
            part_listing::cdef_params::list(rt, input, place, &mut signed(context))
        }
        PartReader::Lr => part_listing::lr_params::list(rt, input, place, &mut signed(context)),
    }
}

// The case whose other words are left.
fn case(
    rt: &impl Print,
    reader: PartReader,
    words: &mut Words,
    bytes: &mut [u8],
) -> io::Result<()> {
    let mut context = [0u32; NUMBERS];
    if cases::fields::context(reader, words, &mut context).is_none() {
        return bad(rt);
    }
    let Some(given) = cases::settings::settings(*words, true, true, bytes) else {
        return bad(rt);
    };
    match bytes.get(..given.size) {
        Some(input) => list(rt, reader, &context, given.place, input),
        None => Ok(()),
    }
}

fn copied(rt: &impl Print, line: &[u8]) -> io::Result<()> {
    rt.write_all(line)?;
    rt.write_all(b"\n")
}

fn one_line(rt: &impl Print, line: Result<&[u8], TooLong>, bytes: &mut [u8]) -> io::Result<()> {
    let Ok(line) = line else {
        return rt.write_all(b"bad\n\n");
    };
    let mut words = Words::new(line);
    let Some(name) = words.next() else {
        return Ok(());
    };
    if name.starts_with(b"#") {
        return copied(rt, line);
    }
    match Word::named(name) {
        Some(Word::ReadPart(reader)) => case(rt, reader, &mut words, bytes)?,
        _ => bad(rt)?,
    }
    rt.write_all(b"\n")
}

fn main(rt: HostRuntime) -> io::Result<()> {
    let mut chunk = [0u8; 65536];
    let mut line = [0u8; 200000];
    let mut bytes = [0u8; 100000];
    let mut lines = LineReader::new(rt.stdin(), &mut chunk);
    lines.try_for_each(&mut line, |line| one_line(&rt, line, &mut bytes))
}
