// One row: place, width, name and value, in columns. A field that is not coded has `-` for place and width, and a mark that says where its value is from.
ghost use Rattle.std.specs.Prelude.{◌≡◌, ◌≤◌, length, take};
ghost use Rattle.lines.specs.Signed.{signed};

use bits::answer::LIMIT;
use lines::answer::Text;
use lines::signed::Number;
use reader::BitReader;
use std::io;

// Where a row's numbers end, and its words begin.
const PLACE: usize = 7;

const WIDTH: usize = 13;

const NAME: usize = 15;

const VALUE: usize = 72;

const MARK: usize = 74;

// The longest line: a mark and its end.
const LINE: usize = 83;

// The longest number: a sign and twenty digits.
const DIGITS: usize = 21;

// A number's text, at the start of an array; its length.
fn put_digits(digits: &mut [u8; DIGITS], n: Number) -> usize
    ensures length { result ≡ length (signed n) }
    ensures room { result ≤ 21 }
    ensures text { take result «digits».new ≡ signed n }
{
    let mut out = Text::new(digits);
    n.put(&mut out);
    out.written().len()
}

// A number that ends before a column.
pub fn put_right(line: &mut [u8], end: usize, n: Number) {
    let mut digits = [0u8; DIGITS];
    let count = put_digits(&mut digits, n);
    if count <= end {
        if let Some(room) = line.get_mut(end - count..end) {
            room.copy_from_slice(&digits[..count]);
        }
    }
}

// The name of a field, and its place in the array if it is one of many.
fn put_name(line: &mut [u8; LINE], name: &[u8], index: Option<usize>) {
    let mut out = Text::new(&mut line[NAME..]);
    out.text(name);
    if let Some(i) = index {
        out.byte(b'[');
        out.decimal(i as u64);
        out.byte(b']');
    }
}

// Puts a mark and the line's end; where the line ends.
fn put_end(line: &mut [u8; LINE], at: usize, mark: &[u8]) -> usize
    requires { at ≤ 83 }
    ensures { result ≤ 83 }
{
    let mut out = Text::new(&mut line[at..]);
    out.text(mark);
    out.byte(b'\n');
    at + out.written().len()
}

// The rows of an input, a row for each field that is read.
#[derive(Drop)]
pub struct Listing<'a, P: Print> {
    rt: &'a P,
    reader: BitReader<'a>,
}

impl<'a, P: Print> Listing<'a, P> {
    // From the bit `at` on.
    pub fn new(rt: &'a P, input: &'a [u8], at: usize) -> Self {
        Listing {
            rt,
            reader: BitReader::new(input, at),
        }
    }

    pub fn heading(&self) -> io::Result<()> {
        let mut line = [b' '; LINE];
        line[PLACE - 3..PLACE].copy_from_slice(b"bit");
        line[WIDTH - 5..WIDTH].copy_from_slice(b"width");
        line[NAME..NAME + 5].copy_from_slice(b"field");
        line[VALUE - 5..VALUE + 1].copy_from_slice(b"value\n");
        self.rt.write_all(&line[..VALUE + 1])
    }

    // The reader once more, to look at what comes without a row.
    pub fn peek(&self) -> BitReader<'a> {
        BitReader::new(self.reader.bytes, self.reader.at)
    }

    // The row of the field that was read, from the bit `at` on.
    fn coded(&self, at: usize, name: &[u8], index: Option<usize>, value: Number) -> io::Result<()> {
        let width = self.reader.at.saturating_sub(at);
        let mut line = [b' '; LINE];
        put_right(&mut line, PLACE, Number::from(at as u64));
        put_right(&mut line, WIDTH, Number::from(width as u64));
        put_name(&mut line, name, index);
        put_right(&mut line, VALUE, value);
        let end = put_end(&mut line, VALUE, b"");
        self.rt.write_all(&line[..end])
    }

    // A field that is refused has no row. The reader goes behind every input: so each later field that is coded is refused too, and has no row either.
    fn lost(&mut self) -> io::Result<()> {
        self.reader.at = LIMIT;
        Ok(())
    }

    fn field(&mut self, width: u32, name: &[u8], index: Option<usize>) -> io::Result<()> {
        let at = self.reader.at;
        match self.reader.f(width) {
            Ok(value) => self.coded(at, name, index, Number::from(value as u64)),
            Err(_) => self.lost(),
        }
    }

    // A field of `width` bits.
    pub fn f(&mut self, width: u32, name: &[u8]) -> io::Result<()> {
        self.field(width, name, None)
    }

    // The same of a field that repeats, at its place in the array.
    pub fn f_at(&mut self, width: u32, name: &[u8], i: usize) -> io::Result<()> {
        self.field(width, name, Some(i))
    }

    // A field of one bit.
    pub fn flag(&mut self, name: &[u8]) -> io::Result<()> {
        self.field(1, name, None)
    }

    pub fn flag_at(&mut self, name: &[u8], i: usize) -> io::Result<()> {
        self.field(1, name, Some(i))
    }

    pub fn uvlc(&mut self, name: &[u8]) -> io::Result<()> {
        let at = self.reader.at;
        match self.reader.uvlc(0, 0) {
            Ok(value) => self.coded(at, name, None, Number::from(value as u64)),
            Err(_) => self.lost(),
        }
    }

    fn signed_field(&mut self, width: u32, name: &[u8], index: Option<usize>) -> io::Result<()> {
        let at = self.reader.at;
        match self.reader.su(width) {
            Ok(value) => self.coded(at, name, index, Number::from(value)),
            Err(_) => self.lost(),
        }
    }

    // A field of `width` bits in two's complement.
    pub fn su(&mut self, width: u32, name: &[u8]) -> io::Result<()> {
        self.signed_field(width, name, None)
    }

    pub fn su_at(&mut self, width: u32, name: &[u8], i: usize) -> io::Result<()> {
        self.signed_field(width, name, Some(i))
    }

    pub fn leb128(&mut self, name: &[u8]) -> io::Result<()> {
        let at = self.reader.at;
        match self.reader.leb128() {
            Ok(value) => self.coded(at, name, None, Number::from(value)),
            Err(_) => self.lost(),
        }
    }

    // A mark has at most eight letters.
    fn uncoded(
        &self,
        name: &[u8],
        index: Option<usize>,
        value: Number,
        mark: &[u8],
    ) -> io::Result<()> {
        let mut line = [b' '; LINE];
        line[PLACE - 1] = b'-';
        line[WIDTH - 1] = b'-';
        put_name(&mut line, name, index);
        put_right(&mut line, VALUE, value);
        let end = put_end(&mut line, MARK, mark);
        self.rt.write_all(&line[..end])
    }

    // A field that the standard gives a value without coding it.
    pub fn inferred(&self, name: &[u8], value: impl Into<Number>) -> io::Result<()> {
        self.uncoded(name, None, value.into(), b"inferred")
    }

    pub fn inferred_at(&self, name: &[u8], i: usize, value: impl Into<Number>) -> io::Result<()> {
        self.uncoded(name, Some(i), value.into(), b"inferred")
    }

    // A field that keeps the value that it had before.
    pub fn previous_at(&self, name: &[u8], i: usize, value: i32) -> io::Result<()> {
        self.uncoded(name, Some(i), Number::from(value), b"previous")
    }

    // A field of `width` bits that is coded, or else has an inferred value.
    pub fn f_if(&mut self, is_coded: bool, width: u32, name: &[u8], value: u32) -> io::Result<()> {
        if is_coded {
            self.f(width, name)
        } else {
            self.inferred(name, value as u64)
        }
    }

    pub fn flag_if(&mut self, is_coded: bool, name: &[u8], value: bool) -> io::Result<()> {
        if is_coded {
            self.flag(name)
        } else {
            self.inferred(name, value as u64)
        }
    }
}
