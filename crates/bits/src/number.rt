// The smaller of two numbers, powers of two, and bit lengths.
ghost use Rattle.std.specs.Prelude.{◌≡◌, min, ◌≤◌, ◌^◌};
ghost use Rattle.bits.specs.Widths.{bit_length};

pub fn smaller(a: u32, b: u32) -> u32
    ensures { result ≡ min a b }
{
    if a < b { a } else { b }
}

pub fn pow2(n: u32) -> u64
    requires { n ≤ 32 }
    ensures { result ≡ 2 ^ n }
{
    1u64 << n
}

// The least width that holds n: all but the leading zeros.
#[tactic(auto, using(crate::proofs::Widths::bit_length_lem))]
pub fn bit_length(n: u32) -> u8
    ensures { result ≡ bit_length n }
{
    (u32::BITS - n.leading_zeros()) as u8
}
