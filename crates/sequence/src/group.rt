// The record in groups: each is the value of one table of specs/.
use crate::record::*;

// 5.5.5
#[derive(Clone, Copy)]
pub struct OperatingParametersInfo {
    pub decoder_buffer_delay: u32,
    pub encoder_buffer_delay: u32,
    pub low_delay_mode_flag: bool,
}

// What the header says of all its points: whether they have a decoder model, the width of its delays, and whether they have a display delay.
#[derive(Clone, Copy)]
pub struct PointForm {
    pub has_model: bool,
    pub width: u32,
    pub has_delay: bool,
}

#[derive(Clone, Copy)]
pub struct PointModel {
    pub decoder_model_present_for_this_op: bool,
    pub operating_parameters_info: OperatingParametersInfo,
}

#[derive(Clone, Copy)]
pub struct PointDelay {
    pub initial_display_delay_present_for_this_op: bool,
    pub initial_display_delay_minus_1: u32,
}

#[derive(Clone, Copy)]
pub struct Timing {
    pub timing_info_present_flag: bool,
    pub timing_info: TimingInfo,
    pub decoder_model_info_present_flag: bool,
    pub decoder_model_info: DecoderModelInfo,
}

#[derive(Clone, Copy)]
pub struct Points {
    pub initial_display_delay_present_flag: bool,
    pub operating_points_cnt_minus_1: u32,
    pub operating_points: [OperatingPoint; 32],
}

#[derive(Clone, Copy)]
pub struct FrameSize {
    pub frame_width_bits_minus_1: u32,
    pub frame_height_bits_minus_1: u32,
    pub max_frame_width_minus_1: u32,
    pub max_frame_height_minus_1: u32,
}

#[derive(Clone, Copy)]
pub struct FrameIds {
    pub frame_id_numbers_present_flag: bool,
    pub delta_frame_id_length_minus_2: u32,
    pub additional_frame_id_length_minus_1: u32,
}

#[derive(Clone, Copy)]
pub struct BlockTools {
    pub use_128x128_superblock: bool,
    pub enable_filter_intra: bool,
    pub enable_intra_edge_filter: bool,
}

#[derive(Clone, Copy)]
pub struct HintTools {
    pub enable_jnt_comp: bool,
    pub enable_ref_frame_mvs: bool,
}

// seq_choose_ and seq_force_ screen_content_tools, or integer_mv.
#[derive(Clone, Copy)]
pub struct Choice {
    pub seq_choose: bool,
    pub seq_force: u32,
}

#[derive(Clone, Copy)]
pub struct HintBits {
    pub order_hint_bits_minus_1: u32,
    pub order_hint_bits: u32,
}

#[derive(Clone, Copy)]
pub struct InterTools {
    pub enable_interintra_compound: bool,
    pub enable_masked_compound: bool,
    pub enable_warped_motion: bool,
    pub enable_dual_filter: bool,
    pub enable_order_hint: bool,
    pub hint_tools: HintTools,
    pub screen_content_tools: Choice,
    pub integer_mv: Choice,
    pub hint_bits: HintBits,
}

#[derive(Clone, Copy)]
pub struct FilterTools {
    pub enable_superres: bool,
    pub enable_cdef: bool,
    pub enable_restoration: bool,
}

#[derive(Clone, Copy)]
pub struct ColorDescription {
    pub color_description_present_flag: bool,
    pub color_primaries: u32,
    pub transfer_characteristics: u32,
    pub matrix_coefficients: u32,
}

#[derive(Clone, Copy)]
pub struct Sampling {
    pub subsampling_x: bool,
    pub subsampling_y: bool,
    pub chroma_sample_position: u32,
}

#[derive(Clone, Copy)]
pub struct Planes {
    pub color_range: bool,
    pub sampling: Sampling,
    pub separate_uv_delta_q: bool,
}
