// The elements that a refusal names.
ghost use Rattle.std.specs.Prelude.{[], ◌≡◌, map};
ghost use Rattle.words.specs.Listed.{word};
ghost use Rattle.words.specs.Names as form;
ghost use Rattle.words.specs.Puts.{Puts};
ghost use Rattle.words.specs.Text.{find};

use crate::put::Text;
use bits::element::*;

// The name of each element, in the order of their numbers; empty where a number names none.
const NAMES: [&[u8]; 81] = [
    b"",
    b"obu_type",
    b"temporal_id",
    b"spatial_id",
    b"seq_profile",
    b"reduced_still_picture_header",
    b"initial_display_delay_present_flag",
    b"operating_points_cnt_minus_1",
    b"operating_point_idc",
    b"seq_level_idx",
    b"decoder_model_present_for_this_op",
    b"initial_display_delay_present_for_this_op",
    b"num_ticks_per_picture_minus_1",
    b"decoder_model_info_present_flag",
    b"buffer_delay_length_minus_1",
    b"buffer_removal_time_length_minus_1",
    b"frame_presentation_time_length_minus_1",
    b"seq_tier",
    b"decoder_buffer_delay",
    b"encoder_buffer_delay",
    b"initial_display_delay_minus_1",
    b"frame_width_bits_minus_1",
    b"frame_height_bits_minus_1",
    b"frame_id_numbers_present_flag",
    b"delta_frame_id_length_minus_2",
    b"additional_frame_id_length_minus_1",
    b"enable_interintra_compound",
    b"enable_masked_compound",
    b"enable_warped_motion",
    b"enable_dual_filter",
    b"enable_order_hint",
    b"enable_jnt_comp",
    b"enable_ref_frame_mvs",
    b"seq_force_screen_content_tools",
    b"seq_force_integer_mv",
    b"order_hint_bits_minus_1",
    b"OrderHintBits",
    b"twelve_bit",
    b"mono_chrome",
    b"color_primaries",
    b"transfer_characteristics",
    b"matrix_coefficients",
    b"color_range",
    b"subsampling_x",
    b"subsampling_y",
    b"chroma_sample_position",
    b"separate_uv_delta_q",
    b"NumPlanes",
    b"",
    b"",
    b"",
    b"base_q_idx",
    b"delta_q_y_dc",
    b"diff_uv_delta",
    b"delta_q_u_dc",
    b"delta_q_u_ac",
    b"delta_q_v_dc",
    b"delta_q_v_ac",
    b"qm_y",
    b"qm_u",
    b"qm_v",
    b"segmentation_update_map",
    b"segmentation_temporal_update",
    b"segmentation_update_data",
    b"feature_enabled",
    b"feature_data",
    b"loop_filter_level",
    b"loop_filter_ref_deltas",
    b"loop_filter_mode_deltas",
    b"loop_filter_sharpness",
    b"cdef_bits",
    b"cdef_y_pri_strength",
    b"cdef_y_sec_strength",
    b"cdef_uv_pri_strength",
    b"cdef_uv_sec_strength",
    b"cdef_damping",
    b"frame_restoration_type",
    b"uses_lr",
    b"uses_chroma_lr",
    b"lr_unit_shift",
    b"lr_uv_shift",
];

// The word with a number; empty, where there is none. (A function of its own: indexed in place, the constant's words are a goal that the prover does not compute.)
#[tactic(auto, unfolding(crate::specs::Listed::word))]
fn nth_word(words: &[&'static [u8]], n: usize) -> &'static [u8]
    ensures { result.now ≡ word n (map (λ w. w.now) words.now) }
{
    words.get(n).copied().unwrap_or(b"")
}

fn name(element: u32) -> &'static [u8]
    ensures { result.now ≡ find element form.names [] }
{
    nth_word(&NAMES, element as usize)
}

pub fn element(out: &mut Text, element: u32)
    ensures { Puts out.old (form.element element) out.new }
{
    let name = name(element);
    if name.is_empty() {
        out.text(b"element ");
        out.decimal(element as u64);
    } else {
        out.text(name);
    }
}

fn among(elements: &[u8], element: u32) -> bool
    ensures { result ≡ form.among elements.now element }
{
    elements.iter().any(|e| element == *e as u32)
}

// The elements that repeat. Where refusal 1 compares all places of one at once, its index tells nothing.
const SINGLE: [u8; 12] = [
    OPERATING_POINT_IDC,
    SEQ_LEVEL_IDX,
    DECODER_MODEL_PRESENT_FOR_THIS_OP,
    INITIAL_DISPLAY_DELAY_PRESENT_FOR_THIS_OP,
    SEQ_TIER,
    DECODER_BUFFER_DELAY,
    ENCODER_BUFFER_DELAY,
    INITIAL_DISPLAY_DELAY_MINUS_1,
    CDEF_Y_PRI_STRENGTH,
    CDEF_Y_SEC_STRENGTH,
    CDEF_UV_PRI_STRENGTH,
    CDEF_UV_SEC_STRENGTH,
];

const COMPARED: [u8; 6] = [
    FEATURE_ENABLED,
    FEATURE_DATA,
    LOOP_FILTER_LEVEL,
    LOOP_FILTER_REF_DELTAS,
    LOOP_FILTER_MODE_DELTAS,
    FRAME_RESTORATION_TYPE,
];

// Whether the index beside an element tells a place, in an answer with a number.
#[tactic(auto, unfolding(crate::specs::Names::single, crate::specs::Names::compared, crate::specs::Names::has_index))]
pub fn has_index(number: u32, element: u32) -> bool
    ensures { result ≡ form.has_index number element }
{
    among(&SINGLE, element) || number == 2 && among(&COMPARED, element)
}
