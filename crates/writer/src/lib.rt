// The bit writer: the codes of 4.10 written, and checks.
#![tactic(auto)]

pub mod number; // number.rt: high bits, and signs
pub mod store; // store.rt: bits stored in bytes

ghost use Rattle.std.specs.Prelude.{◌≡◌, ltb, min, ◌^◌, Ok};
ghost use Rattle.bits.specs.declared.answer.Refusal.TheVariants.{Inconsistent};
ghost use Rattle.bits.specs.Walk.{field, unsigned, mark, demand};
ghost use Rattle.bits.specs.Codec.{same_flag, inferred_flag};
ghost use Rattle.bits.specs.Codes.{uvlc, su, su_out, leb128};
ghost use Rattle.writer.specs.Walked.{Walked, forward};

use crate::number::*;
use crate::store::*;
use bits::answer::*;
use bits::number::*;

// A slice that bits are written into, and the place of the next one.
#[derive(Drop)]
pub struct BitWriter<'a> {
    pub out: &'a mut [u8],
    pub at: usize,
}

// The place `width` bits further on.
fn forward(at: usize, width: u32) -> usize
    ensures { result ≡ forward at width }
{
    if LIMIT <= at {
        return at;
    }
    let next = at + width as usize;
    if LIMIT <= next { LIMIT } else { next }
}

// Whether v has at most `width` bits.
pub fn fits(v: u32, width: u32) -> bool
    ensures { result ≡ ltb v (2 ^ width) }
{
    if width < 32 { v >> width == 0 } else { true }
}

impl<'a> BitWriter<'a> {
    // So many bits of a number, or the refusal where they do not hold it.
    pub fn field(&mut self, width: u32, value: u32, refusal: Refusal) -> Result<(), Refusal>
        ensures { Walked (field width value refusal) self.old self.new result }
    {
        if !fits(value, width) {
            return Err(refusal);
        }
        put(self.out, self.at, width, value);
        self.at = forward(self.at, width);
        Ok(())
    }

    // f(n).
    pub fn f(&mut self, width: u32, value: u32, element: u8, index: u8) -> Result<(), Refusal>
        ensures { Walked (unsigned width value element index) self.old self.new result }
    {
        let refusal = Refusal::Unfit(element, index, bit_length(value));
        self.field(width, value, refusal)
    }

    // f(1) of a flag.
    pub fn flag(&mut self, value: bool) -> Result<(), Refusal>
        ensures { Walked (mark value) self.old self.new result }
    {
        put_bit(self.out, self.at, value);
        self.at = forward(self.at, 1);
        Ok(())
    }

    // A rule that a record has to keep.
    pub fn demand(&mut self, ok: bool, element: u8, index: u8) -> Result<(), Refusal>
        ensures { Walked (demand ok (Inconsistent element index)) self.old self.new result }
    {
        if !ok {
            return Err(Refusal::Inconsistent(element, index));
        }
        Ok(())
    }

    // A flag that is not coded, and must hold an inferred value.
    pub fn inferred_flag(
        &mut self,
        value: bool,
        inferred: bool,
        element: u8,
        index: u8,
    ) -> Result<(), Refusal>
        ensures { Walked ((inferred_flag element index inferred).enc value) self.old self.new result }
    {
        self.demand(value == inferred, element, index)
    }

    // So many zeros, which always fit.
    fn zeros(&mut self, width: u32)
        ensures { Walked (unsigned width 0 0 0) self.old self.new (Ok tt) }
    {
        put(self.out, self.at, width, 0);
        self.at = forward(self.at, width);
    }

    // uvlc: with L the bit length of value + 1, L - 1 zeros and then value + 1 in L bits.
    pub fn uvlc(&mut self, value: u32, element: u8, index: u8) -> Result<(), Refusal>
        ensures { Walked ((uvlc element index).enc value) self.old self.new result }
    {
        if value == u32::MAX {
            return Err(Refusal::Unfit(element, index, 33));
        }
        let length = bit_length(value + 1) as u32;
        self.zeros(length - 1);
        self.f(length, value + 1, element, index)
    }

    // The shortest leb128 of a value: at most five bytes, and never refused.
    pub fn leb128(&mut self, value: u32) -> Result<(), Refusal>
        ensures { Walked ((leb128 8).enc value) self.old self.new result }
    {
        let mut value = value;
        while 128 <= value {
            self.f(8, 128 + value % 128, 0, 0)?;
            value /= 128;
        }
        self.f(8, value, 0, 0)
    }

    // su(n); a width over 32, which is that of the value, counts as 32.
    pub fn su(&mut self, width: u32, value: i32, element: u8, index: u8) -> Result<(), Refusal>
        ensures { Walked ((su (min width 32) element index).enc value) self.old self.new result }
    {
        let width = width.min(32);
        let code = su_code(value, width);
        let refusal = Refusal::Unfit(element, index, signed_length(value));
        self.field(width, code, refusal)
    }
}
