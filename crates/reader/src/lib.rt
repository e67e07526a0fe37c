// The bit reader: the codes of 4.10 read. Each answers a value, and the reader goes on behind it; or the refusal, and it stands where it stood.
#![tactic(auto)]

mod number; // number.rt: the values of codes

ghost use Rattle.std.specs.Prelude.{◌≡◌, ◌++◌, min, ◌+◌, ◌-◌, ◌*◌, ◌/◌, ◌%◌, ◌^◌, ◌<◌, ◌≤◌, OnErr};
ghost use Rattle.bits.specs.Bits.{end, from, to_bits};
ghost use Rattle.bits.specs.Codec.{got, f, flag};
ghost use Rattle.bits.specs.Codes.{unary, uvlc, su, leb128};
ghost use Rattle.reader.specs.Reading.{Said};

use crate::number::*;
use bits::answer::{LIMIT, Refusal};
use bits::number::*;

// The bits of `bytes` from the place `at` on, counted from the first byte's top bit.
#[derive(Clone, Copy)]
pub struct BitReader<'a> {
    pub bytes: &'a [u8],
    pub at: usize,
}

// Where the bits of a slice end.
fn end(s: &[u8]) -> usize
    ensures { result ≡ end s.now }
{
    let length = s.len();
    if length < LIMIT / 8 {
        length * 8
    } else {
        LIMIT
    }
}

// The `width` bits above the d low ones of the byte x.
fn chunk(x: u8, width: u32, d: u32) -> u64
    requires { width + d ≤ 8 }
    ensures { result ≡ x / 2 ^ d % 2 ^ width }
{
    let y = x as u64;
    y / pow2(d) % pow2(width)
}

// A byte more behind the number v of those before it.
fn behind(v: u64, x: u8) -> u64
    requires { v < 4294967296 }
    ensures value { result ≡ v * 256 + x }
    ensures x_bound { x < 256 }
{
    v * 256 + x as u64
}

// The number that so many bytes from i on are.
fn window(s: &[u8], i: usize, bytes: u32) -> u64
    requires { (bytes ≤ 5) × (i * 8 + bytes * 8 ≤ end s.now) }
    ensures { from s.now (i * 8) ≡ to_bits (bytes * 8) result ++ from s.now (i * 8 + bytes * 8) }
{
    let mut v: u64 = 0;
    let mut j = i;
    let mut done: u32 = 0;
    while done < bytes {
        v = behind(v, s[j]);
        j += 1;
        done += 1;
    }
    v
}

// The `width` bits from a place on, where there are fourteen more: at once all the bytes that `width` bits can lie in, whatever the place.
fn by_window(s: &[u8], at: usize, width: u32) -> u32
    requires { (width ≤ 32) × (at + width + 14 ≤ end s.now) }
    ensures { (f width 0 0).dec (from s.now at) ≡ got result (from s.now (at + width)) }
{
    let bytes = (width + 14) / 8;
    let d = bytes * 8 - (at % 8) as u32 - width;
    ((window(s, at / 8, bytes) >> d) % pow2(width)) as u32
}

// The same up to the last bit, byte for byte.
fn by_bytes(s: &[u8], at: usize, width: u32) -> u32
    requires { (width ≤ 32) × (width ≤ end s.now - at) }
    ensures { (f width 0 0).dec (from s.now at) ≡ got result (from s.now (at + width)) }
{
    let mut left = width;
    let mut at = at;
    let mut value: u64 = 0;
    while 0 < left {
        let room = 8 - (at % 8) as u32;
        let piece = smaller(left, room);
        value = value * pow2(piece) + chunk(s[at / 8], piece, room - piece);
        at += piece as usize;
        left -= piece;
    }
    value as u32
}

impl<'a> BitReader<'a> {
    pub fn new(bytes: &'a [u8], at: usize) -> BitReader<'a>
        ensures { (result.bytes ≡ bytes.entry) × (result.at ≡ at) }
    {
        BitReader { bytes, at }
    }

    // How many bits are left.
    pub fn rest(&self) -> usize
        ensures { result ≡ end self.now.bytes.now - self.now.at }
    {
        let last = end(self.bytes);
        if self.at < last { last - self.at } else { 0 }
    }

    // f(n); a width over 32, which is that of the value, counts as 32.
    #[tactic(auto, using(crate::proofs::Fields::fields))]
    pub fn f(&mut self, width: u32) -> Result<u32, Refusal>
        ensures said { Said (f (min width 32) 0 0).dec self.old self.new result }
        ensures kept { OnErr result (self.new.at ≡ self.old.at) }
    {
        let width = smaller(width, 32);
        let at = self.at;
        let left = self.rest();
        if left < width as usize {
            return Err(Refusal::Ends);
        }
        self.at = at + width as usize;
        if width as usize + 14 <= left {
            return Ok(by_window(self.bytes, at, width));
        }
        Ok(by_bytes(self.bytes, at, width))
    }

    // f(1) as a flag.
    #[tactic(auto, using(crate::proofs::Fields::flags))]
    pub fn flag(&mut self) -> Result<bool, Refusal>
        ensures said { Said flag.dec self.old self.new result }
        ensures kept { OnErr result (self.new.at ≡ self.old.at) }
    {
        let at = self.at;
        if self.rest() == 0 {
            return Err(Refusal::Ends);
        }
        self.at = at + 1;
        let room = 7 - (at % 8) as u32;
        Ok(chunk(self.bytes[at / 8], 1, room) == 1)
    }

    // The zeros before the next one, at most 31; the one is not taken.
    #[tactic(auto, using(crate::proofs::Counting::counts))]
    fn unary(&mut self, element: u8, index: u8) -> Result<u32, Refusal>
        ensures { Said (unary 31 element index) self.old self.new result }
    {
        for zeros in 0..32 {
            let at = self.at;
            if self.flag()? {
                self.at = at;
                return Ok(zeros);
            }
        }
        Err(Refusal::Inconsistent(element, index))
    }

    #[tactic(auto, using(crate::proofs::Values::uvlcs))]
    fn uvlc_ahead(&mut self, element: u8, index: u8) -> Result<u32, Refusal>
        ensures { Said (uvlc element index).dec self.old self.new result }
    {
        let zeros = self.unary(element, index)?;
        let plus_1 = self.f(zeros + 1)?;
        Ok(plus_1 - 1)
    }

    // uvlc: L - 1 zeros, and then the value plus 1 in L bits.
    #[tactic(auto, using(crate::proofs::Reading::turned_back))]
    pub fn uvlc(&mut self, element: u8, index: u8) -> Result<u32, Refusal>
        ensures said { Said (uvlc element index).dec self.old self.new result }
        ensures kept { OnErr result (self.new.at ≡ self.old.at) }
    {
        let at = self.at;
        let got = self.uvlc_ahead(element, index);
        if got.is_err() {
            self.at = at;
        }
        got
    }

    // su(n); a width over 32, which is that of the value, counts as 32.
    #[tactic(auto, using(crate::proofs::Values::sus))]
    pub fn su(&mut self, width: u32) -> Result<i32, Refusal>
        ensures said { Said (su (min width 32) 0 0).dec self.old self.new result }
        ensures kept { OnErr result (self.new.at ≡ self.old.at) }
    {
        let width = smaller(width, 32);
        let v = self.f(width)?;
        Ok(su_value(v, width))
    }

    #[tactic(auto, using(crate::proofs::Counting::sizes))]
    fn leb128_ahead(&mut self) -> Result<u64, Refusal>
        ensures { Said (leb128 8).dec self.old self.new result }
    {
        let mut unit: u64 = 1;
        let mut low: u64 = 0;
        for _ in 0..8u32 {
            let byte = self.f(8)?;
            low += (byte % 128) as u64 * unit;
            if byte < 128 {
                return Ok(low);
            }
            unit *= 128;
        }
        Err(Refusal::Size)
    }

    // leb128 in at most eight bytes, the low seven bits first.
    #[tactic(auto, using(crate::proofs::Reading::turned_back))]
    pub fn leb128(&mut self) -> Result<u64, Refusal>
        ensures said { Said (leb128 8).dec self.old self.new result }
        ensures kept { OnErr result (self.new.at ≡ self.old.at) }
    {
        let at = self.at;
        let got = self.leb128_ahead();
        if got.is_err() {
            self.at = at;
        }
        got
    }
}
