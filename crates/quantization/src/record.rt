// 5.9.12 quantization_params: its record, and what it goes by.

#[derive(Clone, Copy)]
pub struct QuantizationParams {
    pub base_q_idx: u32,
    pub delta_q_y_dc: i8,
    pub diff_uv_delta: bool,
    pub delta_q_u_dc: i8,
    pub delta_q_u_ac: i8,
    pub delta_q_v_dc: i8,
    pub delta_q_v_ac: i8,
    pub using_qmatrix: bool,
    pub qm_y: u32,
    pub qm_u: u32,
    pub qm_v: u32,
}

// The deltas apart, as numbers of 32 bits: what i8 does not hold is refused too, and the refusal says the width that the number needs.
#[derive(Clone, Copy)]
pub struct QuantizationDeltas {
    pub y_dc: i32,
    pub u_dc: i32,
    pub u_ac: i32,
    pub v_dc: i32,
    pub v_ac: i32,
}

// What the sequence header says: the planes are 1 if mono_chrome, and any other number counts as 3.
#[derive(Clone, Copy)]
pub struct QuantizationContext {
    pub planes: u32,
    pub separate_uv_delta_q: bool,
}

// The most bits that the part takes, whatever its record and what it goes by: crates/room.
pub const QUANTIZATION_PARAMS_MAX_BITS: usize = 62;
