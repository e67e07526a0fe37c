// 5.3: the rows of the header, of the size, and of the trailing bits.
use crate::row::Listing;
use std::io;

// 5.3.3
fn obu_extension_header(l: &mut Listing<impl Print>) -> io::Result<()> {
    l.f(3, b"temporal_id")?;
    l.f(2, b"spatial_id")?;
    l.f(3, b"extension_header_reserved_3bits")
}

// 5.3.2
pub fn obu_header(l: &mut Listing<impl Print>, extension_flag: bool) -> io::Result<()> {
    l.flag(b"obu_forbidden_bit")?;
    l.f(4, b"obu_type")?;
    l.flag(b"obu_extension_flag")?;
    l.flag(b"obu_has_size_field")?;
    l.flag(b"obu_reserved_1bit")?;
    if extension_flag {
        obu_extension_header(l)?;
    }
    Ok(())
}

// Without a size field the OBU is all that follows.
pub fn obu_size(l: &mut Listing<impl Print>, has_size_field: bool) -> io::Result<()> {
    if has_size_field {
        l.leb128(b"obu_size")
    } else {
        l.inferred(b"obu_size", (l.peek().rest() / 8) as u64)
    }
}

// 5.3.4
pub fn trailing_bits(l: &mut Listing<impl Print>) -> io::Result<()> {
    l.flag(b"trailing_one_bit")?;
    for _ in 0..l.peek().rest() {
        l.flag(b"trailing_zero_bit")?;
    }
    Ok(())
}
