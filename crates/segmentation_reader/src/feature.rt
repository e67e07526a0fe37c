// One feature of a segment, read into the record's numbers.
#![tactic(auto, using(crate::proofs::Features::feature_fillings), unfolding(segmentation::specs::Segmentation::feature, crate::specs::Layout::feature_place))]

ghost use Rattle.std.specs.Prelude.{◌<◌};
ghost use Rattle.reader.specs.Reading.{Said};
ghost use Rattle.fill.specs.Fills.{Fills};
ghost use Rattle.segmentation.specs.Segmentation.{feature_value, feature};
ghost use Rattle.segmentation_reader.specs.Layout.{feature_place};

use bits::answer::Refusal;
use reader::BitReader;
use segmentation::feature::{feature_bits, feature_max};
use segmentation_numbers::place;

// The value, held within its limits.
#[tactic(auto, using(crate::proofs::Values::feature_values))]
fn feature_value(r: &mut BitReader, j: usize) -> Result<i32, Refusal>
    requires { j < 8 }
    ensures { Said (feature_value j 0).dec r.old r.new result }
{
    let limit = i32::from(feature_max(j));
    if j < 5 {
        let value = r.su(feature_bits(j) + 1)?;
        return Ok(value.clamp(-limit, limit));
    }
    let value = r.f(feature_bits(j))? as i32;
    Ok(value.clamp(0, limit))
}

pub fn feature(r: &mut BitReader, i: usize, n: &mut [i32; 133]) -> Result<(), Refusal>
    requires { i < 64 }
    ensures { Fills (feature_place i) (feature i).dec r.old r.new result n.old n.new }
{
    let enabled = r.flag()?;
    n[place::FEATURE_ENABLED + i] = enabled as i32;
    if enabled {
        n[place::FEATURE_DATA + i] = feature_value(r, i % 8)?;
        return Ok(());
    }
    n[place::FEATURE_DATA + i] = 0;
    Ok(())
}
