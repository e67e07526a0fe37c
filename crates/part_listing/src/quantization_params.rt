// 5.9.12 quantization_params and 5.9.13 read_delta_q.
use crate::{answered, is_set};
use listing::row::Listing;
use quantization_numbers::place;
use quantization_reader::read::read_quantization_numbers;
use std::io;

// 5.9.13
fn delta_q(l: &mut Listing<impl Print>, name: &[u8]) -> io::Result<()> {
    let is_coded = is_set(l);
    l.flag(b"delta_coded")?;
    if is_coded {
        l.su(7, name)
    } else {
        l.inferred(name, 0)
    }
}

// Without a difference those of V are those of U.
fn v_deltas(l: &mut Listing<impl Print>, n: &[i32; 13]) -> io::Result<()> {
    if n[place::DIFF_UV_DELTA] != 0 {
        delta_q(l, b"delta_q_v_dc")?;
        return delta_q(l, b"delta_q_v_ac");
    }
    l.inferred(b"delta_q_v_dc", n[place::DELTA_Q_V_DC])?;
    l.inferred(b"delta_q_v_ac", n[place::DELTA_Q_V_AC])
}

fn one_plane(l: &Listing<impl Print>) -> io::Result<()> {
    l.inferred(b"delta_q_u_dc", 0)?;
    l.inferred(b"delta_q_u_ac", 0)?;
    l.inferred(b"delta_q_v_dc", 0)?;
    l.inferred(b"delta_q_v_ac", 0)
}

fn chroma(l: &mut Listing<impl Print>, n: &[i32; 13]) -> io::Result<()> {
    if n[place::PLANES] == 1 {
        return one_plane(l);
    }
    let is_separate = n[place::SEPARATE_UV_DELTA_Q] != 0;
    l.flag_if(is_separate, b"diff_uv_delta", false)?;
    delta_q(l, b"delta_q_u_dc")?;
    delta_q(l, b"delta_q_u_ac")?;
    v_deltas(l, n)
}

fn qmatrix(l: &mut Listing<impl Print>, n: &[i32; 13]) -> io::Result<()> {
    l.flag(b"using_qmatrix")?;
    if n[place::USING_QMATRIX] == 0 {
        return Ok(());
    }
    l.f(4, b"qm_y")?;
    l.f(4, b"qm_u")?;
    if n[place::SEPARATE_UV_DELTA_Q] != 0 {
        l.f(4, b"qm_v")
    } else {
        l.inferred(b"qm_v", n[place::QM_V])
    }
}

fn quantization_params(l: &mut Listing<impl Print>, n: &[i32; 13]) -> io::Result<()> {
    l.f(8, b"base_q_idx")?;
    delta_q(l, b"delta_q_y_dc")?;
    chroma(l, n)?;
    qmatrix(l, n)
}

// The part from the bit `place` of `input` on, by the context that stands in the numbers.
pub fn list(rt: &impl Print, input: &[u8], place: u32, n: &mut [i32; 13]) -> io::Result<()> {
    let answer = read_quantization_numbers(input, place, n);
    answered(rt, input, place, answer, |l| quantization_params(l, n))
}
