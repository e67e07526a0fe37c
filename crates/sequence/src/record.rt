// The sequence header's record (5.5), with the names and structs of the Rust.
ghost use Rattle.std.specs.Prelude.{◌≡◌};
ghost use Rattle.sequence.specs.Color.{plane_count};

use obu::header::ObuHeader;

// 5.5.3
#[derive(Clone, Copy)]
pub struct TimingInfo {
    pub num_units_in_display_tick: u32,
    pub time_scale: u32,
    pub equal_picture_interval: bool,
    pub num_ticks_per_picture_minus_1: u32,
}

// 5.5.4
#[derive(Clone, Copy)]
pub struct DecoderModelInfo {
    pub buffer_delay_length_minus_1: u32,
    pub num_units_in_decoding_tick: u32,
    pub buffer_removal_time_length_minus_1: u32,
    pub frame_presentation_time_length_minus_1: u32,
}

// One operating point of 5.5.1, with its operating parameters (5.5.5).
#[derive(Clone, Copy)]
pub struct OperatingPoint {
    pub idc: u32,
    pub seq_level_idx: u32,
    pub seq_tier: u32,
    pub decoder_model_present_for_this_op: bool,
    pub decoder_buffer_delay: u32,
    pub encoder_buffer_delay: u32,
    pub low_delay_mode_flag: bool,
    pub initial_display_delay_present_for_this_op: bool,
    pub initial_display_delay_minus_1: u32,
}

// A point that is not used.
pub const NO_POINT: OperatingPoint = OperatingPoint {
    idc: 0,
    seq_level_idx: 0,
    seq_tier: 0,
    decoder_model_present_for_this_op: false,
    decoder_buffer_delay: 0,
    encoder_buffer_delay: 0,
    low_delay_mode_flag: false,
    initial_display_delay_present_for_this_op: false,
    initial_display_delay_minus_1: 0,
};

// 5.5.2
#[derive(Clone, Copy)]
pub struct ColorConfig {
    pub high_bitdepth: bool,
    pub twelve_bit: bool,
    pub mono_chrome: bool,
    pub color_description_present_flag: bool,
    pub color_primaries: u32,
    pub transfer_characteristics: u32,
    pub matrix_coefficients: u32,
    pub color_range: bool,
    pub subsampling_x: bool,
    pub subsampling_y: bool,
    pub chroma_sample_position: u32,
    pub separate_uv_delta_q: bool,
    pub num_planes: u32,
}

// NumPlanes.
pub fn plane_count(mono_chrome: bool) -> u32
    ensures { result ≡ plane_count mono_chrome }
{
    if mono_chrome { 1 } else { 3 }
}

// 5.5.1
#[derive(Clone, Copy)]
pub struct SequenceHeaderObu {
    pub obu_header: ObuHeader,
    pub seq_profile: u32,
    pub still_picture: bool,
    pub reduced_still_picture_header: bool,
    pub timing_info_present_flag: bool,
    pub timing_info: TimingInfo,
    pub decoder_model_info_present_flag: bool,
    pub decoder_model_info: DecoderModelInfo,
    pub initial_display_delay_present_flag: bool,
    pub operating_points_cnt_minus_1: u32,
    pub operating_points: [OperatingPoint; 32],
    pub frame_width_bits_minus_1: u32,
    pub frame_height_bits_minus_1: u32,
    pub max_frame_width_minus_1: u32,
    pub max_frame_height_minus_1: u32,
    pub frame_id_numbers_present_flag: bool,
    pub delta_frame_id_length_minus_2: u32,
    pub additional_frame_id_length_minus_1: u32,
    pub use_128x128_superblock: bool,
    pub enable_filter_intra: bool,
    pub enable_intra_edge_filter: bool,
    pub enable_interintra_compound: bool,
    pub enable_masked_compound: bool,
    pub enable_warped_motion: bool,
    pub enable_dual_filter: bool,
    pub enable_order_hint: bool,
    pub enable_jnt_comp: bool,
    pub enable_ref_frame_mvs: bool,
    pub seq_choose_screen_content_tools: bool,
    pub seq_force_screen_content_tools: u32,
    pub seq_choose_integer_mv: bool,
    pub seq_force_integer_mv: u32,
    pub order_hint_bits_minus_1: u32,
    pub order_hint_bits: u32,
    pub enable_superres: bool,
    pub enable_cdef: bool,
    pub enable_restoration: bool,
    pub color_config: ColorConfig,
    pub film_grain_params_present: bool,
}

// The most that a sequence header takes, whatever its record (crates/room): the bytes of its OBU, and the bits of the payload.
pub const SEQUENCE_HEADER_MAX: usize = 397;

pub const SEQUENCE_HEADER_OBU_MAX_BITS: usize = 3139;
