// 5.9.12 quantization_params and 5.9.13 read_delta_q, written.
ghost use Rattle.std.specs.Prelude.{◌≡◌};
ghost use Rattle.writer.specs.Walked.{Walked};
ghost use Rattle.parts.specs.Written.{Writes};
ghost use Rattle.quantization.specs.Quantization.{read_delta_q, diff_uv, v_coded, v_inferred, v_deltas, v_out, uv_deltas, no_uv_deltas, uv_out, chroma, v_matrix, matrices, matrices_out, qmatrix, qmatrix_out, quantization_table, deltas_of, given, quantization_params};

use crate::record::*;
use bits::answer::*;
use bits::element::*;
use parts::delta::coded_delta;
use parts::inferred::inferred_delta;
use parts::pair::pair;
use parts::place::*;
use writer::BitWriter;

fn write_delta_q(w: &mut BitWriter, delta: i32, element: u8) -> Result<(), Refusal>
    ensures { Walked ((read_delta_q element).enc delta) w.old w.new result }
{
    if delta == 0 {
        return w.flag(false);
    }
    coded_delta(w, delta, element, 0)
}

fn diff_uv(w: &mut BitWriter, separate: bool, diff: bool) -> Result<(), Refusal>
    ensures { Walked ((diff_uv separate).enc diff) w.old w.new result }
{
    if separate {
        return w.flag(diff);
    }
    w.demand(!diff, DIFF_UV_DELTA, 0)
}

fn v_coded(w: &mut BitWriter, d: QuantizationDeltas) -> Result<(), Refusal>
    ensures { Walked (v_coded.enc (v_out d)) w.old w.new result }
{
    write_delta_q(w, d.v_dc, DELTA_Q_V_DC)?;
    write_delta_q(w, d.v_ac, DELTA_Q_V_AC)
}

fn v_inferred(w: &mut BitWriter, d: QuantizationDeltas) -> Result<(), Refusal>
    ensures { Walked ((v_inferred d.u_dc d.u_ac).enc (v_out d)) w.old w.new result }
{
    inferred_delta(w, d.v_dc, d.u_dc, DELTA_Q_V_DC)?;
    inferred_delta(w, d.v_ac, d.u_ac, DELTA_Q_V_AC)
}

fn v_deltas(w: &mut BitWriter, diff: bool, d: QuantizationDeltas) -> Result<(), Refusal>
    ensures { Walked ((v_deltas diff d.u_dc d.u_ac).enc (v_out d)) w.old w.new result }
{
    if diff {
        return v_coded(w, d);
    }
    v_inferred(w, d)
}

fn uv_deltas(w: &mut BitWriter, diff: bool, d: QuantizationDeltas) -> Result<(), Refusal>
    ensures { Walked ((uv_deltas diff).enc (uv_out d)) w.old w.new result }
{
    write_delta_q(w, d.u_dc, DELTA_Q_U_DC)?;
    write_delta_q(w, d.u_ac, DELTA_Q_U_AC)?;
    v_deltas(w, diff, d)
}

// With one plane all four are 0.
fn no_uv_deltas(w: &mut BitWriter, d: QuantizationDeltas) -> Result<(), Refusal>
    ensures { Walked (no_uv_deltas.enc (uv_out d)) w.old w.new result }
{
    inferred_delta(w, d.u_dc, 0, DELTA_Q_U_DC)?;
    inferred_delta(w, d.u_ac, 0, DELTA_Q_U_AC)?;
    v_inferred(w, d)
}

fn chroma(
    w: &mut BitWriter,
    planes: u32,
    separate: bool,
    diff: bool,
    d: QuantizationDeltas,
) -> Result<(), Refusal>
    ensures { Walked ((chroma planes separate).enc (diff, uv_out d)) w.old w.new result }
{
    if planes == 1 {
        return no_uv_deltas(w, d);
    }
    diff_uv(w, separate, diff)?;
    uv_deltas(w, diff, d)
}

fn v_matrix(w: &mut BitWriter, separate: bool, u: u32, v: u32) -> Result<(), Refusal>
    ensures { Walked ((v_matrix separate u).enc v) w.old w.new result }
{
    if separate {
        return w.f(4, v, QM_V, 0);
    }
    w.demand(v == u, QM_V, 0)
}

fn matrices(w: &mut BitWriter, separate: bool, q: QuantizationParams) -> Result<(), Refusal>
    ensures { Walked ((matrices separate).enc (matrices_out q)) w.old w.new result }
{
    pair(w, 4, q.qm_y, q.qm_u, QM_Y, 0, QM_U, 0)?;
    v_matrix(w, separate, q.qm_u, q.qm_v)
}

fn qmatrix(w: &mut BitWriter, separate: bool, q: QuantizationParams) -> Result<(), Refusal>
    ensures { Walked ((qmatrix separate).enc (qmatrix_out q)) w.old w.new result }
{
    w.flag(q.using_qmatrix)?;
    if q.using_qmatrix {
        return matrices(w, separate, q);
    }
    Ok(())
}

fn quantization_params(
    w: &mut BitWriter,
    q: QuantizationParams,
    d: QuantizationDeltas,
    context: QuantizationContext,
) -> Result<(), Refusal>
    ensures { Walked ((quantization_table context).enc (given q d)) w.old w.new result }
{
    w.f(8, q.base_q_idx, BASE_Q_IDX, 0)?;
    write_delta_q(w, d.y_dc, DELTA_Q_Y_DC)?;
    let separate = context.separate_uv_delta_q;
    chroma(w, context.planes, separate, q.diff_uv_delta, d)?;
    qmatrix(w, context.separate_uv_delta_q, q)
}

impl From<QuantizationParams> for QuantizationDeltas {
    ghost from_gives = { λ q d. d ≡ deltas_of q };

    fn from(q: QuantizationParams) -> QuantizationDeltas {
        QuantizationDeltas {
            y_dc: q.delta_q_y_dc as i32,
            u_dc: q.delta_q_u_dc as i32,
            u_ac: q.delta_q_u_ac as i32,
            v_dc: q.delta_q_v_dc as i32,
            v_ac: q.delta_q_v_ac as i32,
        }
    }
}

// The part written from the bit `place` of `out` on, with the deltas apart: those of the record are not looked at.
pub fn write_given(
    q: QuantizationParams,
    d: QuantizationDeltas,
    context: QuantizationContext,
    out: &mut [u8],
    place: u32,
) -> Result<u32, Refusal>
    ensures { Writes ((quantization_table context).enc (given q d)) place out.old result out.new }
{
    let mut near = [0u8; (QUANTIZATION_PARAMS_MAX_BITS + SPARE_BITS) / 64 * 8];
    lend(out, place, &mut near);
    let mut w = BitWriter {
        out: &mut near,
        at: start(place),
    };
    let walk = quantization_params(&mut w, q, d, context);
    let at = w.at;
    settle(walk, at, place, &near, out)
}

// The part written from the bit `place` of `out` on.
pub fn write_quantization_params(
    q: QuantizationParams,
    context: QuantizationContext,
    out: &mut [u8],
    place: u32,
) -> Result<u32, Refusal>
    ensures { Writes ((quantization_params context).enc q) place out.old result out.new }
{
    write_given(q, QuantizationDeltas::from(q), context, out, place)
}
