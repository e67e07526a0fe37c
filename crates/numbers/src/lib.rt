// A number as a field takes it. One of 16 bits takes the nearest number that it holds, and the record is answered as the one with the number itself; a number
// below 0 goes into a field without sign as the largest number, which no coded field of a part holds.
#![tactic(auto)]

ghost use Rattle.std.specs.Prelude.{◌≡◌};
ghost use Rattle.numbers.specs.Numbers.{signed_at, set_at, natural_at};
ghost use Rattle.numbers.specs.Held.{int16};

// The number at a place; beyond the last, 0.
pub fn number(n: &[i32], i: usize) -> i32
    ensures { result ≡ signed_at n.now i }
{
    n.get(i).copied().unwrap_or(0)
}

pub fn flag(n: &[i32], i: usize) -> bool
    ensures { result ≡ set_at n.now i }
{
    number(n, i) != 0
}

pub fn natural(n: &[i32], i: usize) -> u32
    ensures { result ≡ natural_at n.now i }
{
    u32::try_from(number(n, i)).unwrap_or(u32::MAX)
}

pub fn int16(n: &[i32], i: usize) -> i16
    ensures { result ≡ int16 (signed_at n.now i) }
{
    number(n, i).clamp(-32768, 32767) as i16
}
