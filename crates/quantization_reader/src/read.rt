// 5.9.12 quantization_params and 5.9.13 read_delta_q, read into the record's numbers, whose context is kept.
#![tactic(auto)]

ghost use Rattle.std.specs.Prelude.{replicate, pos};
ghost use Rattle.reader.specs.Reading.{Said};
ghost use Rattle.fill.specs.Fills.{Fills};
ghost use Rattle.parts_reader.specs.Reading.{Tells};
ghost use Rattle.quantization.specs.Quantization.{diff_uv, v_coded, v_deltas, uv_deltas, chroma, v_matrix, matrices, qmatrix, quantization_params};
ghost use Rattle.quantization_reader.specs.Layout.{v_place, uv_place, chroma_place, matrices_place, qmatrix_place, quantization_place, quantization_by};

use bits::answer::Refusal;
use parts_reader::delta::delta;
use parts_reader::place::begin;
use quantization::record::QuantizationContext;
use quantization_numbers::place;
use quantization_numbers::record::quantization_context;
use reader::BitReader;

#[tactic(auto, using(parts_reader::proofs::Storing::sayings), unfolding(quantization::specs::Quantization::diff_uv))]
fn diff_uv(r: &mut BitReader, separate: bool) -> Result<bool, Refusal>
    ensures { Said (diff_uv separate).dec r.old r.new result }
{
    if separate {
        return r.flag();
    }
    Ok(false)
}

#[tactic(auto, using(crate::proofs::Deltas::delta_fillings), unfolding(quantization::specs::Quantization::v_coded, crate::specs::Layout::v_place))]
fn v_coded(r: &mut BitReader, n: &mut [i32; 13]) -> Result<(), Refusal>
    ensures { Fills v_place v_coded.dec r.old r.new result n.old n.new }
{
    n[place::DELTA_Q_V_DC] = delta(r, 0)?;
    n[place::DELTA_Q_V_AC] = delta(r, 0)?;
    Ok(())
}

#[tactic(auto, using(crate::proofs::Deltas::delta_fillings), unfolding(quantization::specs::Quantization::v_deltas))]
fn v_deltas(
    r: &mut BitReader,
    diff: bool,
    dc: i32,
    ac: i32,
    n: &mut [i32; 13],
) -> Result<(), Refusal>
    ensures { Fills v_place (v_deltas diff dc ac).dec r.old r.new result n.old n.new }
{
    if diff {
        return v_coded(r, n);
    }
    n[place::DELTA_Q_V_DC] = dc;
    n[place::DELTA_Q_V_AC] = ac;
    Ok(())
}

#[tactic(auto, using(crate::proofs::Deltas::delta_fillings), unfolding(quantization::specs::Quantization::uv_deltas, crate::specs::Layout::uv_place))]
fn uv_deltas(r: &mut BitReader, diff: bool, n: &mut [i32; 13]) -> Result<(), Refusal>
    ensures { Fills uv_place (uv_deltas diff).dec r.old r.new result n.old n.new }
{
    let dc = delta(r, 0)?;
    n[place::DELTA_Q_U_DC] = dc;
    let ac = delta(r, 0)?;
    n[place::DELTA_Q_U_AC] = ac;
    v_deltas(r, diff, dc, ac, n)
}

// With one plane all four are 0.
#[tactic(auto, using(crate::proofs::Deltas::delta_fillings), unfolding(quantization::specs::Quantization::chroma, quantization::specs::Quantization::three_planes, crate::specs::Layout::chroma_place))]
fn chroma(r: &mut BitReader, planes: u32, separate: bool, n: &mut [i32; 13]) -> Result<(), Refusal>
    ensures { Fills chroma_place (chroma planes separate).dec r.old r.new result n.old n.new }
{
    if planes == 1 {
        n[place::DIFF_UV_DELTA] = 0;
        n[place::DELTA_Q_U_DC] = 0;
        n[place::DELTA_Q_U_AC] = 0;
        n[place::DELTA_Q_V_DC] = 0;
        n[place::DELTA_Q_V_AC] = 0;
        return Ok(());
    }
    let diff = diff_uv(r, separate)?;
    n[place::DIFF_UV_DELTA] = diff as i32;
    uv_deltas(r, diff, n)
}

#[tactic(auto, using(parts_reader::proofs::Storing::sayings, reader::proofs::Reading::f_of), unfolding(quantization::specs::Quantization::v_matrix))]
fn v_matrix(r: &mut BitReader, separate: bool, u: u32) -> Result<u32, Refusal>
    ensures { Said (v_matrix separate u).dec r.old r.new result }
{
    if separate {
        return r.f(4);
    }
    Ok(u)
}

#[tactic(auto, using(crate::proofs::Deltas::delta_fillings), unfolding(quantization::specs::Quantization::matrices, crate::specs::Layout::matrices_place))]
fn matrices(r: &mut BitReader, separate: bool, n: &mut [i32; 13]) -> Result<(), Refusal>
    ensures { Fills matrices_place (matrices separate).dec r.old r.new result n.old n.new }
{
    n[place::QM_Y] = r.f(4)? as i32;
    let u = r.f(4)?;
    n[place::QM_U] = u as i32;
    n[place::QM_V] = v_matrix(r, separate, u)? as i32;
    Ok(())
}

#[tactic(auto, using(crate::proofs::Deltas::delta_fillings), unfolding(quantization::specs::Quantization::qmatrix, crate::specs::Layout::qmatrix_place))]
fn qmatrix(r: &mut BitReader, separate: bool, n: &mut [i32; 13]) -> Result<(), Refusal>
    ensures { Fills qmatrix_place (qmatrix separate).dec r.old r.new result n.old n.new }
{
    let using = r.flag()?;
    n[place::USING_QMATRIX] = using as i32;
    if using {
        return matrices(r, separate, n);
    }
    n[place::QM_Y] = 0;
    n[place::QM_U] = 0;
    n[place::QM_V] = 0;
    Ok(())
}

#[tactic(auto, using(crate::proofs::Deltas::delta_fillings), unfolding(quantization::specs::Quantization::quantization_params, quantization::specs::Quantization::quantization_table, crate::specs::Layout::quantization_place))]
fn quantization_params(
    r: &mut BitReader,
    context: QuantizationContext,
    n: &mut [i32; 13],
) -> Result<(), Refusal>
    ensures { Fills quantization_place (quantization_params context).dec r.old r.new result n.old n.new }
{
    n[place::BASE_Q_IDX] = r.f(8)? as i32;
    n[place::DELTA_Q_Y_DC] = delta(r, 0)?;
    chroma(r, context.planes, context.separate_uv_delta_q, n)?;
    qmatrix(r, context.separate_uv_delta_q, n)
}

// The part from the bit `place` of `input` on, behind the context's numbers; where it is refused, all numbers are as they were.
pub fn fill_quantization_params(
    input: &[u8],
    place: u32,
    context: QuantizationContext,
    n: &mut [i32; 13],
) -> Result<u32, Refusal>
    ensures { Tells quantization_place (quantization_params context) place input.now n.old result n.new }
{
    let mut r = begin(input, place)?;
    let mut m = *n;
    quantization_params(&mut r, context, &mut m)?;
    *n = m;
    Ok(r.at as u32)
}

// The same, by the context that stands in the numbers.
pub fn read_quantization_numbers(
    input: &[u8],
    place: u32,
    n: &mut [i32; 13],
) -> Result<u32, Refusal>
    ensures { Tells quantization_place (quantization_by n.old) place input.now n.old result n.new }
{
    let context = quantization_context(n);
    fill_quantization_params(input, place, context, n)
}

// The part from the bit `place` of `input` on; where it is refused, all numbers are 0. (The context's places are 0 in either case.)
pub fn read_quantization_params(
    input: &[u8],
    place: u32,
    context: QuantizationContext,
    n: &mut [i32; 13],
) -> Result<u32, Refusal>
    ensures { Tells quantization_place (quantization_params context) place input.now (replicate 13 (pos 0)) result n.new }
{
    *n = [0i32; 13];
    fill_quantization_params(input, place, context, n)
}
