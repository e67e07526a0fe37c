// 5.3 read: the header, the size, and the trailing bits.
#![tactic(auto, using(crate::proofs::HeaderReading::header_readings))]

ghost use Rattle.std.specs.Prelude.{◌≡◌, min, ◌-◌, ◌*◌, ◌/◌, ◌<◌, length, eqb, ◌&&◌, OnErr};
ghost use Rattle.bits.specs.Bits.{limit, from, to_bits};
ghost use Rattle.bits.specs.Codec.{zeros};
ghost use Rattle.reader.specs.Reading.{Said, Completes};
ghost use Rattle.obu.specs.Header.{expected_type, obu_extension_header, header_with, header_end, end_with, obu_header};
ghost use Rattle.obu.specs.Framing.{read_size, all_zero, is_trailing, read_trailing};

use crate::header::ObuHeader;
use bits::answer::{LIMIT, Refusal};
use bits::element::OBU_TYPE;
use reader::BitReader;

// So many reserved bits, all 0; a width over 32 counts as 32.
fn zeros(r: &mut BitReader, width: u32) -> Result<(), Refusal>
    ensures { Said (zeros (min width 32)).dec r.old r.new result }
{
    if r.f(width)? == 0 {
        return Ok(());
    }
    Err(Refusal::Reserved)
}

// obu_type, which must be t.
fn expected_type(r: &mut BitReader, t: u32) -> Result<u32, Refusal>
    ensures { Said (expected_type t).dec r.old r.new result }
{
    let v = r.f(4)?;
    if v == t {
        return Ok(v);
    }
    Err(Refusal::Inconsistent(OBU_TYPE, 0))
}

// 5.3.3, the last of a header.
#[tactic(auto, using(reader::proofs::Reading::readings), unfolding(crate::specs::Header::obu_extension_header))]
#[inline(always)]
fn obu_extension_header(
    r: &mut BitReader,
    obu_type: u32,
    extension_flag: bool,
    has_size_field: bool,
) -> Result<ObuHeader, Refusal>
    ensures { Completes (header_with obu_type extension_flag has_size_field) obu_extension_header r.old r.new result }
{
    let temporal_id = r.f(3)?;
    let spatial_id = r.f(2)?;
    zeros(r, 3)?;
    Ok(ObuHeader {
        obu_type,
        extension_flag,
        has_size_field,
        temporal_id,
        spatial_id,
    })
}

// The header from obu_has_size_field on.
#[tactic(auto, using(reader::proofs::Reading::readings), unfolding(crate::specs::Header::header_end))]
#[inline(always)]
fn header_end(r: &mut BitReader, obu_type: u32, extension_flag: bool) -> Result<ObuHeader, Refusal>
    ensures { Completes (end_with obu_type extension_flag) (header_end extension_flag) r.old r.new result }
{
    let has_size_field = r.flag()?;
    zeros(r, 1)?;
    if extension_flag {
        return obu_extension_header(r, obu_type, extension_flag, has_size_field);
    }
    Ok(ObuHeader {
        obu_type,
        extension_flag,
        has_size_field,
        temporal_id: 0,
        spatial_id: 0,
    })
}

#[tactic(auto, using(reader::proofs::Reading::readings), unfolding(crate::specs::Header::obu_header, crate::specs::Header::header_table))]
#[inline(always)]
fn header_ahead(r: &mut BitReader, t: u32) -> Result<ObuHeader, Refusal>
    ensures { Said (obu_header t).dec r.old r.new result }
{
    zeros(r, 1)?;
    let obu_type = expected_type(r, t)?;
    let extension_flag = r.flag()?;
    header_end(r, obu_type, extension_flag)
}

// 5.3.2, of an OBU that is to have the type t. Where it is refused, the reader stands where it stood.
#[tactic(auto, using(reader::proofs::Reading::turned_back))]
#[inline(always)]
pub fn obu_header(r: &mut BitReader, t: u32) -> Result<ObuHeader, Refusal>
    ensures said { Said (obu_header t).dec r.old r.new result }
    ensures kept { OnErr result (r.new.at ≡ r.old.at) }
{
    let at = r.at;
    let header = header_ahead(r, t);
    if header.is_err() {
        r.at = at;
    }
    header
}

// How many bytes have places.
fn reach(s: &[u8]) -> usize
    ensures { result ≡ min (length s.now) (limit / 8) }
{
    s.len().min(LIMIT / 8)
}

// Whether just `size` bytes follow.
#[tactic(auto, using(crate::proofs::TailReading::follows))]
fn follow(r: &BitReader, size: u64) -> bool
    ensures { result ≡ eqb (size * 8) (length (from r.now.bytes.now r.now.at)) }
{
    let left = r.rest();
    left % 8 == 0 && size == (left / 8) as u64
}

#[tactic(auto, using(crate::proofs::TailReading::sizes))]
#[inline(always)]
fn size_ahead(r: &mut BitReader, has_size_field: bool) -> Result<(), Refusal>
    ensures { Said (read_size has_size_field) r.old r.new result }
{
    if has_size_field {
        let size = r.leb128()?;
        if !follow(r, size) {
            return Err(Refusal::Size);
        }
    }
    Ok(())
}

// The size, if flagged: the number of the bytes that follow. Where it is refused, the reader stands where it stood.
#[tactic(auto, using(reader::proofs::Reading::turned_back))]
#[inline(always)]
pub fn obu_size(r: &mut BitReader, has_size_field: bool) -> Result<(), Refusal>
    ensures said { Said (read_size has_size_field) r.old r.new result }
    ensures kept { OnErr result (r.new.at ≡ r.old.at) }
{
    let at = r.at;
    let size = size_ahead(r, has_size_field);
    if size.is_err() {
        r.at = at;
    }
    size
}

// Whether the bits of x from k on are a one and zeros.
#[tactic(auto, using(crate::proofs::TailReading::ones))]
fn last_one(x: u8, k: u32) -> bool
    requires { k < 8 }
    ensures { result ≡ is_trailing (to_bits (8 - k) x) }
{
    let one = 128u64 >> k;
    x as u64 % (one * 2) == one
}

// Whether a byte is 0, and so were those before it.
#[tactic(auto, using(crate::proofs::TailReading::stills))]
fn still_zero(clear: bool, x: u8) -> bool
    ensures { result ≡ (clear && eqb x 0) }
{
    if x == 0 { clear } else { false }
}

// Whether all bytes from i on are 0. (No way out of the loop: so it is compiled to look at many bytes at a time.)
#[tactic(auto, using(crate::proofs::TailReading::scans))]
fn zero_bytes(s: &[u8], i: usize) -> bool
    ensures { result ≡ all_zero (from s.now (i * 8)) }
{
    let mut clear = true;
    for j in i..reach(s) {
        clear = still_zero(clear, s[j]);
    }
    clear
}

// 5.3.4: a one, and zeros up to the end. Where they are refused, the reader stands where it stood.
#[tactic(auto, using(crate::proofs::TailReading::tails))]
pub fn trailing_bits(r: &mut BitReader) -> Result<(), Refusal>
    ensures said { Said read_trailing r.old r.new result }
    ensures kept { OnErr result (r.new.at ≡ r.old.at) }
{
    let last = reach(r.bytes);
    let i = r.at / 8;
    if i < last && last_one(r.bytes[i], (r.at % 8) as u32) && zero_bytes(r.bytes, i + 1) {
        r.at = last * 8;
        return Ok(());
    }
    Err(Refusal::Trailing)
}
