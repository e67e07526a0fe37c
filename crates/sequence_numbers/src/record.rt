// The sequence header's record from its numbers.
ghost use Rattle.std.specs.Prelude.{◌≡◌};
ghost use Rattle.bits.specs.Walk.{run};
ghost use Rattle.sequence.specs.Sequence.{sequence_header};
ghost use Rattle.sequence_reader.specs.Layouts.{record_of};
ghost use Rattle.sequence_numbers.specs.Groups.{timing_of, model_of, color_of};

use crate::header::obu_header;
use crate::points::operating_points;
use sequence::record::*;
use sequence_reader::place;

fn timing_info(n: &[u32; place::NUMBERS]) -> TimingInfo
    ensures { result ≡ timing_of n.now }
{
    TimingInfo {
        num_units_in_display_tick: n[place::NUM_UNITS_IN_DISPLAY_TICK],
        time_scale: n[place::TIME_SCALE],
        equal_picture_interval: n[place::EQUAL_PICTURE_INTERVAL] != 0,
        num_ticks_per_picture_minus_1: n[place::NUM_TICKS_PER_PICTURE_MINUS_1],
    }
}

fn decoder_model_info(n: &[u32; place::NUMBERS]) -> DecoderModelInfo
    ensures { result ≡ model_of n.now }
{
    DecoderModelInfo {
        buffer_delay_length_minus_1: n[place::BUFFER_DELAY_LENGTH_MINUS_1],
        num_units_in_decoding_tick: n[place::NUM_UNITS_IN_DECODING_TICK],
        buffer_removal_time_length_minus_1: n[place::BUFFER_REMOVAL_TIME_LENGTH_MINUS_1],
        frame_presentation_time_length_minus_1: n[place::FRAME_PRESENTATION_TIME_LENGTH_MINUS_1],
    }
}

fn color_config(n: &[u32; place::NUMBERS]) -> ColorConfig
    ensures { result ≡ color_of n.now }
{
    ColorConfig {
        high_bitdepth: n[place::HIGH_BITDEPTH] != 0,
        twelve_bit: n[place::TWELVE_BIT] != 0,
        mono_chrome: n[place::MONO_CHROME] != 0,
        color_description_present_flag: n[place::COLOR_DESCRIPTION_PRESENT_FLAG] != 0,
        color_primaries: n[place::COLOR_PRIMARIES],
        transfer_characteristics: n[place::TRANSFER_CHARACTERISTICS],
        matrix_coefficients: n[place::MATRIX_COEFFICIENTS],
        color_range: n[place::COLOR_RANGE] != 0,
        subsampling_x: n[place::SUBSAMPLING_X] != 0,
        subsampling_y: n[place::SUBSAMPLING_Y] != 0,
        chroma_sample_position: n[place::CHROMA_SAMPLE_POSITION],
        separate_uv_delta_q: n[place::SEPARATE_UV_DELTA_Q] != 0,
        num_planes: n[place::NUM_PLANES],
    }
}

// A record that is walked as the one that the numbers give.
pub fn sequence_header(n: &[u32; place::NUMBERS]) -> SequenceHeaderObu
    ensures { run (sequence_header.enc result) ≡ run (sequence_header.enc (record_of n.now)) }
{
    let obu_header = obu_header(
        n[place::OBU_TYPE],
        n[place::EXTENSION_FLAG],
        n[place::HAS_SIZE_FIELD],
        n[place::TEMPORAL_ID],
        n[place::SPATIAL_ID],
    );
    let timing_info = timing_info(n);
    let decoder_model_info = decoder_model_info(n);
    let operating_points = operating_points(n);
    let color_config = color_config(n);
    SequenceHeaderObu {
        obu_header,
        seq_profile: n[place::SEQ_PROFILE],
        still_picture: n[place::STILL_PICTURE] != 0,
        reduced_still_picture_header: n[place::REDUCED_STILL_PICTURE_HEADER] != 0,
        timing_info_present_flag: n[place::TIMING_INFO_PRESENT_FLAG] != 0,
        timing_info,
        decoder_model_info_present_flag: n[place::DECODER_MODEL_INFO_PRESENT_FLAG] != 0,
        decoder_model_info,
        initial_display_delay_present_flag: n[place::INITIAL_DISPLAY_DELAY_PRESENT_FLAG] != 0,
        operating_points_cnt_minus_1: n[place::OPERATING_POINTS_CNT_MINUS_1],
        operating_points,
        frame_width_bits_minus_1: n[place::FRAME_WIDTH_BITS_MINUS_1],
        frame_height_bits_minus_1: n[place::FRAME_HEIGHT_BITS_MINUS_1],
        max_frame_width_minus_1: n[place::MAX_FRAME_WIDTH_MINUS_1],
        max_frame_height_minus_1: n[place::MAX_FRAME_HEIGHT_MINUS_1],
        frame_id_numbers_present_flag: n[place::FRAME_ID_NUMBERS_PRESENT_FLAG] != 0,
        delta_frame_id_length_minus_2: n[place::DELTA_FRAME_ID_LENGTH_MINUS_2],
        additional_frame_id_length_minus_1: n[place::ADDITIONAL_FRAME_ID_LENGTH_MINUS_1],
        use_128x128_superblock: n[place::USE_128X128_SUPERBLOCK] != 0,
        enable_filter_intra: n[place::ENABLE_FILTER_INTRA] != 0,
        enable_intra_edge_filter: n[place::ENABLE_INTRA_EDGE_FILTER] != 0,
        enable_interintra_compound: n[place::ENABLE_INTERINTRA_COMPOUND] != 0,
        enable_masked_compound: n[place::ENABLE_MASKED_COMPOUND] != 0,
        enable_warped_motion: n[place::ENABLE_WARPED_MOTION] != 0,
        enable_dual_filter: n[place::ENABLE_DUAL_FILTER] != 0,
        enable_order_hint: n[place::ENABLE_ORDER_HINT] != 0,
        enable_jnt_comp: n[place::ENABLE_JNT_COMP] != 0,
        enable_ref_frame_mvs: n[place::ENABLE_REF_FRAME_MVS] != 0,
        seq_choose_screen_content_tools: n[place::SEQ_CHOOSE_SCREEN_CONTENT_TOOLS] != 0,
        seq_force_screen_content_tools: n[place::SEQ_FORCE_SCREEN_CONTENT_TOOLS],
        seq_choose_integer_mv: n[place::SEQ_CHOOSE_INTEGER_MV] != 0,
        seq_force_integer_mv: n[place::SEQ_FORCE_INTEGER_MV],
        order_hint_bits_minus_1: n[place::ORDER_HINT_BITS_MINUS_1],
        order_hint_bits: n[place::ORDER_HINT_BITS],
        enable_superres: n[place::ENABLE_SUPERRES] != 0,
        enable_cdef: n[place::ENABLE_CDEF] != 0,
        enable_restoration: n[place::ENABLE_RESTORATION] != 0,
        color_config,
        film_grain_params_present: n[place::FILM_GRAIN_PARAMS_PRESENT] != 0,
    }
}
