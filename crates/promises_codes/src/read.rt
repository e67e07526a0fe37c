// f(n), su(n), uvlc and leb128, read.
ghost use Rattle.std.specs.Prelude.{◌≡◌, min, OnErr};
ghost use Rattle.bits.specs.Codec.{f};
ghost use Rattle.bits.specs.Codes.{uvlc, su, leb128};
ghost use Rattle.reader.specs.Reading.{Said};

use bits::answer::Refusal;
use reader::BitReader;

pub fn f(r: &mut BitReader, width: u32) -> Result<u32, Refusal>
    ensures said { Said (f (min width 32) 0 0).dec r.old r.new result }
    ensures kept { OnErr result (r.new.at ≡ r.old.at) }
{
    r.f(width)
}

pub fn su(r: &mut BitReader, width: u32) -> Result<i32, Refusal>
    ensures said { Said (su (min width 32) 0 0).dec r.old r.new result }
    ensures kept { OnErr result (r.new.at ≡ r.old.at) }
{
    r.su(width)
}

pub fn uvlc(r: &mut BitReader, element: u8, index: u8) -> Result<u32, Refusal>
    ensures said { Said (uvlc element index).dec r.old r.new result }
    ensures kept { OnErr result (r.new.at ≡ r.old.at) }
{
    r.uvlc(element, index)
}

pub fn leb128(r: &mut BitReader) -> Result<u64, Refusal>
    ensures said { Said (leb128 8).dec r.old r.new result }
    ensures kept { OnErr result (r.new.at ≡ r.old.at) }
{
    r.leb128()
}
