// The eight features of a segment: the bits and the limit of each one's value.
ghost use Rattle.std.specs.Prelude.{◌≡◌, ◌<◌, ◌≤◌, pos, ◌≤ℤ◌};
ghost use Rattle.parts.specs.Codes.{clip};
ghost use Rattle.segmentation.specs.Segmentation.{feature_bits, feature_max};

const FEATURE_BITS: [u32; 8] = [8, 6, 6, 6, 6, 3, 0, 0];

const FEATURE_MAX: [i16; 8] = [255, 63, 63, 63, 63, 7, 0, 0];

pub fn feature_bits(j: usize) -> u32
    requires { j < 8 }
    ensures value { result ≡ feature_bits j }
    ensures upper_bound { result ≤ 8 }
{
    FEATURE_BITS[j]
}

pub fn feature_max(j: usize) -> i16
    requires { j < 8 }
    ensures value { result ≡ feature_max j }
    ensures lower_bound { pos 0 ≤ℤ result }
{
    FEATURE_MAX[j]
}

// Clip3: x, held between low and high; low first, where they are out of order. (std's `clamp` asks that they are in order.)
#[tactic(auto, unfolding(parts::specs::Codes::clip))]
pub fn clip3(low: i16, high: i16, x: i16) -> i16
    ensures { result ≡ clip low high x }
{
    if x < low {
        low
    } else if high < x {
        high
    } else {
        x
    }
}
