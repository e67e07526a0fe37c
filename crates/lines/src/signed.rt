// A number with a sign, as it is printed: any of a u64 and any of an i32, which no signed type of 64 bits holds both.
ghost use Rattle.lines.specs.Signed.{signed};
ghost use Rattle.words.specs.Puts.{Puts};

use words::put::Text;

#[derive(Clone, Copy, PartialEq, Eq, Debug)]
pub struct Number {
    pub is_negative: bool,
    pub magnitude: u64,
}

impl From<u64> for Number {
    fn from(n: u64) -> Self {
        Number {
            is_negative: false,
            magnitude: n,
        }
    }
}

impl From<i32> for Number {
    fn from(n: i32) -> Self {
        Number {
            is_negative: n < 0,
            magnitude: u64::from(n.unsigned_abs()),
        }
    }
}

impl Number {
    #[tactic(auto, using(words::proofs::Puts::puts_then), unfolding(crate::specs::Signed::signed))]
    pub fn put(self, out: &mut Text)
        ensures { Puts out.old (signed self) out.new }
    {
        if self.is_negative {
            out.byte(b'-');
            out.decimal(self.magnitude);
        } else {
            out.decimal(self.magnitude);
        }
    }
}
