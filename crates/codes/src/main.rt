// Runs the four codes on lists of values, and prints a row for each: the bits that were written, and the value that they read as; or the refusal.
#![tactic(auto)]

use bits::answer::{Numbered, Refusal};
use bits::element::*;
use reader::BitReader;
use std::fmt::Display;
use std::io;
use writer::BitWriter;

// A width, and a value to be written in it.
const F: [(u32, u32); 10] = [
    (0, 0),
    (0, 1),
    (1, 1),
    (5, 17),
    (5, 31),
    (5, 32),
    (8, 255),
    (12, 2748),
    (31, 2147483648),
    (32, 4294967295),
];

const SU: [(u32, i32); 12] = [
    (7, 0),
    (7, -1),
    (7, -64),
    (7, 63),
    (7, 64),
    (7, -65),
    (1, -1),
    (1, 1),
    (9, -256),
    (9, 255),
    (32, -2147483648),
    (32, 2147483647),
];

const UVLC: [u32; 9] = [0, 1, 2, 3, 6, 7, 2147483647, 4294967294, 4294967295];

const LEB128: [u32; 9] = [0, 1, 127, 128, 300, 16255, 16383, 16384, 4294967295];

// A delta and a segment value of sixteen bits, one behind the other.
const NARROW: [(i16, i16); 3] = [(-64, -256), (64, 0), (63, 256)];

// Spellings that are not written: a size in more bytes than it needs; eight bytes that go on; a byte that is missing; 32 zeros.
const LONG_SIZE: [u8; 3] = [132, 128, 0];

const ENDLESS_SIZE: [u8; 9] = [255, 255, 255, 255, 255, 255, 255, 255, 0];

const CUT_SIZE: [u8; 1] = [128];

const ZEROS: [u8; 8] = [0, 0, 0, 0, 255, 255, 255, 255];

// The bits of s up to a place.
fn binary(rt: &impl Print, s: &[u8], end: usize) -> io::Result<()> {
    let mut r = BitReader::new(s, 0);
    for _ in 0..end {
        match r.flag() {
            Ok(one) => print!(rt; "{}", one as u32)?,
            Err(_) => print!(rt; "?")?,
        }
    }
    print!(rt; " = ")
}

fn refusal(rt: &impl Print, r: Refusal) -> io::Result<()> {
    let n = Numbered::from(r);
    print!(rt; "refused {}, {}, {}", n.number, n.first, n.second)?;
    if n.number == 2 {
        print!(rt; ", {}", n.third)?;
    }
    Ok(())
}

// What was read.
fn told<T: Display + Drop>(rt: &impl Print, got: Result<T, Refusal>) -> io::Result<()> {
    match got {
        Ok(value) => print!(rt; "{value}"),
        Err(r) => refusal(rt, r),
    }
}

// What was written, and what it reads as; or why it was not written.
fn row<T: Display + Drop>(
    rt: &impl Print,
    walk: Result<(), Refusal>,
    w: &BitWriter,
    got: Result<T, Refusal>,
) -> io::Result<()> {
    match walk {
        Ok(()) => {
            binary(rt, w.out, w.at)?;
            told(rt, got)?;
        }
        Err(r) => refusal(rt, r)?,
    }
    println!(rt; "")
}

fn f(rt: &impl Print, n: u32, value: u32) -> io::Result<()> {
    print!(rt; "f({n}) {value}: ")?;
    let mut out = [0u8; 8];
    let mut w = BitWriter {
        out: &mut out,
        at: 0,
    };
    let walk = w.f(n, value, BASE_Q_IDX, 0);
    let got = BitReader::new(w.out, 0).f(n);
    row(rt, walk, &w, got)
}

fn su(rt: &impl Print, n: u32, value: i32) -> io::Result<()> {
    print!(rt; "su({n}) {value}: ")?;
    let mut out = [0u8; 8];
    let mut w = BitWriter {
        out: &mut out,
        at: 0,
    };
    let walk = w.su(n, value, DELTA_Q_Y_DC, 0);
    let got = BitReader::new(w.out, 0).su(n);
    row(rt, walk, &w, got)
}

fn uvlc(rt: &impl Print, value: u32) -> io::Result<()> {
    print!(rt; "uvlc {value}: ")?;
    let mut out = [0u8; 8];
    let mut w = BitWriter {
        out: &mut out,
        at: 0,
    };
    let walk = w.uvlc(value, NUM_TICKS_PER_PICTURE_MINUS_1, 0);
    let got = BitReader::new(w.out, 0).uvlc(NUM_TICKS_PER_PICTURE_MINUS_1, 0);
    row(rt, walk, &w, got)
}

fn leb128(rt: &impl Print, value: u32) -> io::Result<()> {
    print!(rt; "leb128 {value}: ")?;
    let mut out = [0u8; 8];
    let mut w = BitWriter {
        out: &mut out,
        at: 0,
    };
    let walk = w.leb128(value);
    let got = BitReader::new(w.out, 0).leb128();
    row(rt, walk, &w, got)
}

// Both numbers, or the first refusal.
fn both(w: &mut BitWriter, delta: i16, segment: i16) -> Result<(), Refusal> {
    w.su(7, delta as i32, DELTA_Q_Y_DC, 0)?;
    w.su(9, segment as i32, FEATURE_DATA, 63)
}

fn narrow(rt: &impl Print, delta: i16, segment: i16) -> io::Result<()> {
    print!(rt; "su(7) su(9) {delta} {segment}: ")?;
    let mut out = [0u8; 8];
    let mut w = BitWriter {
        out: &mut out,
        at: 0,
    };
    if let Err(r) = both(&mut w, delta, segment) {
        refusal(rt, r)?;
        return println!(rt; "");
    }
    let end = w.at;
    binary(rt, &out, end)?;
    let mut r = BitReader::new(&out, 0);
    told(rt, r.su(7))?;
    print!(rt; ", ")?;
    told(rt, r.su(9))?;
    println!(rt; "")
}

fn only_read<T: Display + Drop>(
    rt: &impl Print,
    name: &str,
    got: Result<T, Refusal>,
) -> io::Result<()> {
    print!(rt; "{name}: ")?;
    told(rt, got)?;
    println!(rt; "")
}

fn main(rt: HostRuntime) -> io::Result<()> {
    for (n, value) in F {
        f(&rt, n, value)?;
    }
    for (n, value) in SU {
        su(&rt, n, value)?;
    }
    for (delta, segment) in NARROW {
        narrow(&rt, delta, segment)?;
    }
    for value in UVLC {
        uvlc(&rt, value)?;
    }
    for value in LEB128 {
        leb128(&rt, value)?;
    }
    only_read(&rt, "84 80 00", BitReader::new(&LONG_SIZE, 0).leb128())?;
    only_read(
        &rt,
        "FF FF FF FF FF FF FF FF",
        BitReader::new(&ENDLESS_SIZE, 0).leb128(),
    )?;
    only_read(&rt, "80", BitReader::new(&CUT_SIZE, 0).leb128())?;
    only_read(
        &rt,
        "32 zeros",
        BitReader::new(&ZEROS, 0).uvlc(NUM_TICKS_PER_PICTURE_MINUS_1, 0),
    )
}
