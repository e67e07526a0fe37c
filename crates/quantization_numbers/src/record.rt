// The record of the quantization parameters from its numbers, the context first. (No `From`: neither the array nor the record is of this crate.)
ghost use Rattle.std.specs.Prelude.{◌≡◌};
ghost use Rattle.quantization.specs.Quantization.{deltas_of};
ghost use Rattle.quantization_numbers.specs.Numbers.{quantization_context, quantization_params, without_deltas};

use crate::place;
use numbers::*;
use quantization::record::*;

pub fn quantization_context(n: &[i32; 13]) -> QuantizationContext
    ensures { result ≡ quantization_context n.now }
{
    QuantizationContext {
        planes: natural(n, place::PLANES),
        separate_uv_delta_q: flag(n, place::SEPARATE_UV_DELTA_Q),
    }
}

// The record but for its deltas, which go apart.
pub fn quantization_params(n: &[i32; 13]) -> QuantizationParams
    ensures { result ≡ without_deltas (quantization_params n.now) }
{
    QuantizationParams {
        base_q_idx: natural(n, place::BASE_Q_IDX),
        delta_q_y_dc: 0,
        diff_uv_delta: flag(n, place::DIFF_UV_DELTA),
        delta_q_u_dc: 0,
        delta_q_u_ac: 0,
        delta_q_v_dc: 0,
        delta_q_v_ac: 0,
        using_qmatrix: flag(n, place::USING_QMATRIX),
        qm_y: natural(n, place::QM_Y),
        qm_u: natural(n, place::QM_U),
        qm_v: natural(n, place::QM_V),
    }
}

pub fn quantization_deltas(n: &[i32; 13]) -> QuantizationDeltas
    ensures { result ≡ deltas_of (quantization_params n.now) }
{
    QuantizationDeltas {
        y_dc: number(n, place::DELTA_Q_Y_DC),
        u_dc: number(n, place::DELTA_Q_U_DC),
        u_ac: number(n, place::DELTA_Q_U_AC),
        v_dc: number(n, place::DELTA_Q_V_DC),
        v_ac: number(n, place::DELTA_Q_V_AC),
    }
}
