// Words, numbers and bytes out of a line.
ghost use Rattle.std.specs.Prelude.{◌≡◌, ◌<◌, ◌≤◌, ◌+◌, ◌^◌, ◌++◌, List, ℕ, length, IfSome};
ghost use Rattle.lines.specs.Hex.{Hexed, byte as hex_byte};
ghost use Rattle.std.specs.Iterator.{at_most};
ghost use Rattle.lines.specs.Text as form;

// The words of a line that are left. Spaces stand around words; `;` is a word by itself.
#[derive(Clone, Copy)]
pub struct Words<'a> {
    rest: &'a [u8],
}

impl<'a> Words<'a> {
    pub fn new(line: &'a [u8]) -> Words<'a> {
        Words { rest: line }
    }
}

impl<'a> Iterator for Words<'a> {
    type Item = &'a [u8];

    ghost remaining = { λ w. at_most (length w.rest.now) };

    // A word, and what is left behind it, are the end of what was left.
    ghost next_gives = { λ old word new. IfSome word (λ w. (before : List ℕ) × (old.rest.now ≡ before ++ (w.now ++ new.rest.now))) };

    fn next(&mut self) -> Option<&'a [u8]> {
        let start = self.rest.iter().position(|b| *b != b' ')?;
        let line = &self.rest[start..];
        let len = if line[0] == b';' {
            1
        } else {
            line.iter()
                .position(|b| *b == b' ' || *b == b';')
                .unwrap_or(line.len())
        };
        let (word, rest) = line.split_at(len);
        self.rest = rest;
        Some(word)
    }
}

// Decimal digits: at least one, and at most 18 behind the zeros in front.
#[tactic(auto, using(crate::proofs::Texts::no_room), unfolding(crate::specs::Text::some_digits, crate::specs::Text::digits))]
fn digits(s: &[u8]) -> Option<u64>
    ensures value { result ≡ form.some_digits s.now }
    ensures fits { IfSome result (λ n. n < 10 ^ 18) }
{
    if s.is_empty() {
        return None;
    }
    let mut value = 0u64;
    for b in s {
        if value >= 100_000_000_000_000_000 {
            return None;
        }
        let digit = char::from(*b).to_digit(10)?;
        value = value * 10 + digit as u64;
    }
    Some(value)
}

// A whole word as a number: digits, or `-` and digits.
#[tactic(auto, unfolding(crate::specs::Text::numeral))]
pub fn number(s: &[u8]) -> Option<i64>
    ensures { result ≡ form.numeral s.now }
{
    let (first, rest) = s.split_first()?;
    if *first == b'-' {
        return Some(-(digits(rest)? as i64));
    }
    Some(digits(s)? as i64)
}

// The byte of two hex digits of either case.
#[tactic(auto, using(crate::proofs::Texts::hex_value))]
fn byte(high: u8, low: u8) -> Option<u8>
    ensures { result ≡ hex_byte high low }
{
    let high = char::from(high).to_digit(16)?;
    let low = char::from(low).to_digit(16)?;
    Some((16 * high + low) as u8)
}

// A whole word as bytes in hex, two digits each, at the start of a slice; how many. The word may be empty. More bytes than the slice has are none.
pub fn hex(s: &[u8], out: &mut [u8]) -> Option<usize>
    ensures { Hexed s.now out.old result out.new }
{
    let n = s.len() / 2;
    if s.len() % 2 != 0 || out.len() < n {
        return None;
    }
    // By index: a byte of one slice is two digits of the other, and chunks in a zip say it no plainer.
    for i in 0..n {
        out[i] = byte(s[2 * i], s[2 * i + 1])?;
    }
    Some(n)
}
