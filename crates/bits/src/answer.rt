// Why nothing was written, or nothing read; and the numbers of document 01.
ghost use Rattle.std.specs.Prelude.{◌≡◌};
ghost use Rattle.bits.specs.Answers.{plain, numbered, capped};
ghost use Rattle.bits.specs.Written.{answer_numbers};

// Places end here, at 2^63.
pub const LIMIT: usize = 9223372036854775808;

// Why nothing was written, or nothing read.
#[derive(Clone, Copy, PartialEq, Eq)]
pub enum Refusal {
    // An inconsistent element, or a value that the rules forbid: element, index.
    Inconsistent(u8, u8),
    // A value that does not fit its field: element, index, and the least width that would hold it; 0 where no width helps.
    Unfit(u8, u8, u8),
    // A buffer that is too short: the least length that is enough.
    Short(u32),
    // The input ends inside header, size or body.
    Ends,
    // A forbidden or reserved bit is set.
    Reserved,
    // The size field is wrong.
    Size,
    // The trailing bits are wrong.
    Trailing,
    // The lent slice is longer than 65,536 bytes.
    Long,
}

// An answer as document 01 tables it.
#[derive(Clone, Copy, PartialEq, Eq)]
pub struct Numbered {
    pub number: u32,
    pub first: u32,
    pub second: u32,
    pub third: u32,
}

impl Numbered {
    fn plain(number: u32) -> Numbered
        ensures { result ≡ plain number }
    {
        Numbered {
            number,
            first: 0,
            second: 0,
            third: 0,
        }
    }
}

impl From<Refusal> for Numbered {
    ghost from_gives = { λ r n. n ≡ numbered r };

    fn from(r: Refusal) -> Numbered {
        match r {
            Refusal::Inconsistent(element, index) => Numbered {
                number: 1,
                first: element as u32,
                second: index as u32,
                third: 0,
            },
            Refusal::Unfit(element, index, width) => Numbered {
                number: 2,
                first: element as u32,
                second: index as u32,
                third: width as u32,
            },
            Refusal::Short(length) => Numbered {
                number: 3,
                first: length,
                second: 0,
                third: 0,
            },
            Refusal::Ends => Numbered::plain(4),
            Refusal::Reserved => Numbered::plain(5),
            Refusal::Size => Numbered::plain(6),
            Refusal::Trailing => Numbered::plain(7),
            Refusal::Long => Numbered::plain(8),
        }
    }
}

// Of a public writer: how many bytes were written, or of a part the bit behind it.
impl From<Result<u32, Refusal>> for Numbered {
    ghost from_gives = { λ a n. n ≡ answer_numbers a };

    fn from(answer: Result<u32, Refusal>) -> Numbered {
        match answer {
            Ok(value) => Numbered {
                number: 0,
                first: value,
                second: 0,
                third: 0,
            },
            Err(r) => Numbered::from(r),
        }
    }
}

// n, or the largest u32.
pub fn capped(n: usize) -> u32
    ensures { result ≡ capped n }
{
    if n < 4294967295 { n as u32 } else { 4294967295 }
}
