// A delta, read.
ghost use Rattle.std.specs.Prelude.{◌≡◌, OnErr};
ghost use Rattle.reader.specs.Reading.{Said};
ghost use Rattle.parts_reader.specs.Reading.{delta};

use bits::answer::Refusal;
use reader::BitReader;

#[tactic(auto, using(crate::proofs::Deltas::deltas))]
fn delta_ahead(r: &mut BitReader, old: i32) -> Result<i32, Refusal>
    ensures { Said (delta old).dec r.old r.new result }
{
    if r.flag()? {
        return r.su(7);
    }
    Ok(old)
}

// su(7) where a flag is set, and the old delta where it is not. Where it is refused, the reader stands where it stood.
#[tactic(auto, using(reader::proofs::Reading::turned_back))]
pub fn delta(r: &mut BitReader, old: i32) -> Result<i32, Refusal>
    ensures said { Said (delta old).dec r.old r.new result }
    ensures kept { OnErr result (r.new.at ≡ r.old.at) }
{
    let at = r.at;
    let got = delta_ahead(r, old);
    if got.is_err() {
        r.at = at;
    }
    got
}
