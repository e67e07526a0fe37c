// The coding tools of 5.5.1.
use crate::row::Listing;
use sequence_reader::place;
use std::io;

pub fn block_tools(l: &mut Listing<impl Print>) -> io::Result<()> {
    l.flag(b"use_128x128_superblock")?;
    l.flag(b"enable_filter_intra")?;
    l.flag(b"enable_intra_edge_filter")
}

fn screen_content_tools(l: &mut Listing<impl Print>, n: &[u32; place::NUMBERS]) -> io::Result<()> {
    let is_coded = n[place::SEQ_CHOOSE_SCREEN_CONTENT_TOOLS] == 0;
    l.flag(b"seq_choose_screen_content_tools")?;
    l.f_if(is_coded, 1, b"seq_force_screen_content_tools", 2)
}

fn integer_mv(l: &mut Listing<impl Print>, n: &[u32; place::NUMBERS]) -> io::Result<()> {
    if n[place::SEQ_FORCE_SCREEN_CONTENT_TOOLS] == 0 {
        return l.inferred(b"seq_force_integer_mv", 2);
    }
    l.flag(b"seq_choose_integer_mv")?;
    let is_coded = n[place::SEQ_CHOOSE_INTEGER_MV] == 0;
    l.f_if(is_coded, 1, b"seq_force_integer_mv", 2)
}

fn hint_bits(l: &mut Listing<impl Print>, n: &[u32; place::NUMBERS]) -> io::Result<()> {
    if n[place::ENABLE_ORDER_HINT] != 0 {
        l.f(3, b"order_hint_bits_minus_1")?;
    }
    l.inferred(b"OrderHintBits", n[place::ORDER_HINT_BITS] as u64)
}

fn full_tools(l: &mut Listing<impl Print>, n: &[u32; place::NUMBERS]) -> io::Result<()> {
    let has_order_hint = n[place::ENABLE_ORDER_HINT] != 0;
    l.flag(b"enable_interintra_compound")?;
    l.flag(b"enable_masked_compound")?;
    l.flag(b"enable_warped_motion")?;
    l.flag(b"enable_dual_filter")?;
    l.flag(b"enable_order_hint")?;
    l.flag_if(has_order_hint, b"enable_jnt_comp", false)?;
    l.flag_if(has_order_hint, b"enable_ref_frame_mvs", false)
}

// With the reduced header none is coded.
fn reduced_tools(l: &Listing<impl Print>) -> io::Result<()> {
    l.inferred(b"enable_interintra_compound", 0)?;
    l.inferred(b"enable_masked_compound", 0)?;
    l.inferred(b"enable_warped_motion", 0)?;
    l.inferred(b"enable_dual_filter", 0)?;
    l.inferred(b"enable_order_hint", 0)?;
    l.inferred(b"enable_jnt_comp", 0)?;
    l.inferred(b"enable_ref_frame_mvs", 0)?;
    l.inferred(b"seq_force_screen_content_tools", 2)?;
    l.inferred(b"seq_force_integer_mv", 2)?;
    l.inferred(b"OrderHintBits", 0)
}

pub fn inter_tools(l: &mut Listing<impl Print>, n: &[u32; place::NUMBERS]) -> io::Result<()> {
    if n[place::REDUCED_STILL_PICTURE_HEADER] != 0 {
        return reduced_tools(l);
    }
    full_tools(l, n)?;
    screen_content_tools(l, n)?;
    integer_mv(l, n)?;
    hint_bits(l, n)
}

pub fn filter_tools(l: &mut Listing<impl Print>) -> io::Result<()> {
    l.flag(b"enable_superres")?;
    l.flag(b"enable_cdef")?;
    l.flag(b"enable_restoration")
}
