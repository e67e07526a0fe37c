// Shows the OBU that stands on standard input: its bytes in hex, and a row for each field, or the refusal in words.
#![tactic(auto)]

use bits::answer::Refusal;
use lines::answer::{Text, hex};
use lines::input::read_full;
use lines::signed::Number;
use listing::list::list;
use listing::refusal::refusal;
use listing::row::put_right;
use std::io;
use std::io::Read;

// A row of the dump: at most sixteen bytes, behind the bit place of the first.
fn dump_row(rt: &impl Print, place: u64, row: &[u8]) -> io::Result<()> {
    let mut line = [b' '; 60];
    put_right(&mut line, 7, Number::from(place));
    let mut out = Text::new(&mut line[8..]);
    for b in row {
        out.byte(b' ');
        hex(&mut out, &[*b]);
    }
    out.byte(b'\n');
    let end = 8 + out.written().len();
    rt.write_all(&line[..end])
}

fn dump(rt: &impl Print, s: &[u8]) -> io::Result<()> {
    for (i, row) in s.chunks(16).enumerate() {
        dump_row(rt, (i as u64).saturating_mul(128), row)?;
    }
    rt.write_all(b"\n")
}

// Whether there is more to read.
fn is_more(input: &mut impl Read) -> bool {
    let mut next = [0u8; 1];
    read_full(input, &mut next) != 0
}

fn main(rt: HostRuntime) -> io::Result<()> {
    let mut input = rt.stdin();
    let mut bytes = [0u8; 65536];
    let n = read_full(&mut input, &mut bytes);
    if is_more(&mut input) {
        return refusal(&rt, Refusal::Long);
    }
    dump(&rt, &bytes[..n])?;
    list(&rt, &bytes[..n])
}
