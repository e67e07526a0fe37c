// A record to start from, which the writer accepts: an ordinary video.
#![tactic(auto)]

ghost use Rattle.std.specs.Prelude.{◌≡◌, ◌-◌};
ghost use Rattle.bits.specs.Widths.{bit_length};
ghost use Rattle.sequence_reader.specs.Layouts.{numbers_of};
ghost use Rattle.starter.specs.Video.{minus_1, profile, video};

use bits::number::bit_length;
use sequence_reader::place;

// The level of the first operating point.
const FIRST_LEVEL: usize = place::OPERATING_POINTS + place::SEQ_LEVEL_IDX;

fn minus_1(size: u32) -> u32
    ensures { result ≡ minus_1 size }
{
    if size == 0 { u32::MAX } else { size - 1 }
}

// The fewest bits that hold v, minus 1; of 0 it is 0.
fn bits_minus_1(v: u32) -> u32
    ensures { result ≡ bit_length v - 1 }
{
    let length = bit_length(v) as u32;
    if length == 0 { 0 } else { length - 1 }
}

fn profile(bit_depth: u32) -> u32
    ensures { result ≡ profile bit_depth }
{
    if bit_depth == 12 { 2 } else { 0 }
}

// The numbers of the record, whatever was there.
pub fn video(width: u32, height: u32, bit_depth: u32, numbers: &mut [u32; place::NUMBERS])
    ensures { numbers.new ≡ numbers_of (video width height bit_depth) }
{
    let w = minus_1(width);
    let h = minus_1(height);
    let mut n = [0u32; place::NUMBERS];
    n[place::OBU_TYPE] = 1;
    n[place::HAS_SIZE_FIELD] = 1;
    n[place::SEQ_PROFILE] = profile(bit_depth);
    n[FIRST_LEVEL] = 31;
    n[place::FRAME_WIDTH_BITS_MINUS_1] = bits_minus_1(w);
    n[place::FRAME_HEIGHT_BITS_MINUS_1] = bits_minus_1(h);
    n[place::MAX_FRAME_WIDTH_MINUS_1] = w;
    n[place::MAX_FRAME_HEIGHT_MINUS_1] = h;
    n[place::USE_128X128_SUPERBLOCK] = 1;
    n[place::ENABLE_FILTER_INTRA] = 1;
    n[place::ENABLE_INTRA_EDGE_FILTER] = 1;
    n[place::ENABLE_INTERINTRA_COMPOUND] = 1;
    n[place::ENABLE_MASKED_COMPOUND] = 1;
    n[place::ENABLE_WARPED_MOTION] = 1;
    n[place::ENABLE_DUAL_FILTER] = 1;
    n[place::ENABLE_ORDER_HINT] = 1;
    n[place::ENABLE_JNT_COMP] = 1;
    n[place::ENABLE_REF_FRAME_MVS] = 1;
    n[place::SEQ_CHOOSE_SCREEN_CONTENT_TOOLS] = 1;
    n[place::SEQ_FORCE_SCREEN_CONTENT_TOOLS] = 2;
    n[place::SEQ_CHOOSE_INTEGER_MV] = 1;
    n[place::SEQ_FORCE_INTEGER_MV] = 2;
    n[place::ORDER_HINT_BITS_MINUS_1] = 6;
    n[place::ORDER_HINT_BITS] = 7;
    n[place::ENABLE_CDEF] = 1;
    n[place::ENABLE_RESTORATION] = 1;
    n[place::HIGH_BITDEPTH] = ((bit_depth == 10) | (bit_depth == 12)) as u32;
    n[place::TWELVE_BIT] = !((bit_depth == 8) | (bit_depth == 10)) as u32;
    n[place::COLOR_PRIMARIES] = 2;
    n[place::TRANSFER_CHARACTERISTICS] = 2;
    n[place::MATRIX_COEFFICIENTS] = 2;
    n[place::SUBSAMPLING_X] = 1;
    n[place::SUBSAMPLING_Y] = 1;
    n[place::NUM_PLANES] = 3;
    *numbers = n;
}
