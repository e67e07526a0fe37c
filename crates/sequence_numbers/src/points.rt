// The operating points: nine numbers each.
ghost use Rattle.std.specs.Prelude.{◌≡◌, ◌<◌, take};
ghost use Rattle.numbers.specs.Numbers.{at, each};
ghost use Rattle.sequence_numbers.specs.Groups.{point_of, used};

use sequence::record::*;
use sequence_reader::place;

// Point i.
fn operating_point(n: &[u32; place::NUMBERS], i: usize) -> OperatingPoint
    requires { i < 32 }
    ensures { result ≡ point_of n.now i }
{
    let at = place::OPERATING_POINTS + place::POINT_NUMBERS * i;
    OperatingPoint {
        idc: n[at],
        seq_level_idx: n[at + place::SEQ_LEVEL_IDX],
        seq_tier: n[at + place::SEQ_TIER],
        decoder_model_present_for_this_op: n[at + place::DECODER_MODEL_PRESENT_FOR_THIS_OP] != 0,
        decoder_buffer_delay: n[at + place::DECODER_BUFFER_DELAY],
        encoder_buffer_delay: n[at + place::ENCODER_BUFFER_DELAY],
        low_delay_mode_flag: n[at + place::LOW_DELAY_MODE_FLAG] != 0,
        initial_display_delay_present_for_this_op: n[at
            + place::INITIAL_DISPLAY_DELAY_PRESENT_FOR_THIS_OP]
            != 0,
        initial_display_delay_minus_1: n[at + place::INITIAL_DISPLAY_DELAY_MINUS_1],
    }
}

// How many points a header with this count uses.
pub fn used(count: u32) -> usize
    ensures { result ≡ used count }
{
    if count < 31 { count as usize + 1 } else { 32 }
}

// The points that are used; the others stay zeros.
pub fn operating_points(n: &[u32; place::NUMBERS]) -> [OperatingPoint; 32]
    ensures { take (used (at n.now 19)) result ≡ each (used (at n.now 19)) (point_of n.now) }
{
    let mut points = [NO_POINT; 32];
    for i in 0..used(n[place::OPERATING_POINTS_CNT_MINUS_1]) {
        points[i] = operating_point(n, i);
    }
    points
}
