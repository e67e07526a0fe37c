// The numbers of each part's context, from those of the sequence header's record and the frame's own values.
ghost use Rattle.std.specs.Prelude.{◌≡◌, pos};
ghost use Rattle.sequence.specs.Color.{plane_count};
ghost use Rattle.sequence_reader.specs.Layouts.{record_of};
ghost use Rattle.contexts.specs.Contexts.{quantization_context, loop_filter_context, cdef_context, lr_context};
ghost use Rattle.contexts.specs.Numbers.{bit, quantization_numbers, loop_filter_numbers, cdef_numbers, lr_numbers};

use sequence_reader::place;

fn bit(set: bool) -> i32
    ensures { result ≡ bit set }
{
    if set { 1 } else { 0 }
}

fn planes(one: bool) -> i32
    ensures { result ≡ pos (plane_count one) }
{
    if one { 1 } else { 3 }
}

pub fn quantization_context(header: &[u32; place::NUMBERS]) -> [i32; 2]
    ensures { result ≡ quantization_numbers (quantization_context (record_of header.now)) }
{
    [
        planes(header[place::NUM_PLANES] == 1),
        bit(header[place::SEPARATE_UV_DELTA_Q] != 0),
    ]
}

pub fn loop_filter_context(
    header: &[u32; place::NUMBERS],
    coded_lossless: bool,
    allow_intrabc: bool,
) -> [i32; 3]
    ensures { result ≡ loop_filter_numbers (loop_filter_context (record_of header.now) coded_lossless allow_intrabc) }
{
    [
        bit(coded_lossless),
        bit(allow_intrabc),
        planes(header[place::NUM_PLANES] == 1),
    ]
}

pub fn cdef_context(
    header: &[u32; place::NUMBERS],
    coded_lossless: bool,
    allow_intrabc: bool,
) -> [i32; 4]
    ensures { result ≡ cdef_numbers (cdef_context (record_of header.now) coded_lossless allow_intrabc) }
{
    [
        bit(coded_lossless),
        bit(allow_intrabc),
        bit(header[place::ENABLE_CDEF] != 0),
        planes(header[place::NUM_PLANES] == 1),
    ]
}

pub fn lr_context(
    header: &[u32; place::NUMBERS],
    all_lossless: bool,
    allow_intrabc: bool,
) -> [i32; 7]
    ensures { result ≡ lr_numbers (lr_context (record_of header.now) all_lossless allow_intrabc) }
{
    [
        bit(all_lossless),
        bit(allow_intrabc),
        bit(header[place::ENABLE_RESTORATION] != 0),
        planes(header[place::NUM_PLANES] == 1),
        bit(header[place::USE_128X128_SUPERBLOCK] != 0),
        bit(header[place::SUBSAMPLING_X] != 0),
        bit(header[place::SUBSAMPLING_Y] != 0),
    ]
}
