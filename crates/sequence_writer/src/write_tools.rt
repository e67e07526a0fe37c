// The coding tools of 5.5.1, written.
ghost use Rattle.writer.specs.Walked.{Walked};
ghost use Rattle.sequence.specs.Fields.{block_tools_of, hint_tools_of, choice_in, hint_bits_in, motion_out, order_out, inter_tools_of, filter_tools_of};
ghost use Rattle.sequence.specs.Tools.{block_tools, hint_tools, choice, no_choice, integer_mv, hint_bits, motion_tools, order_tools, full_tools, reduced_motion_tools, reduced_order_tools, reduced_tools, inter_tools, filter_tools};

use crate::optional::*;
use bits::answer::*;
use bits::element::*;
use sequence::record::SequenceHeaderObu;
use writer::BitWriter;

pub fn block_tools(w: &mut BitWriter, h: SequenceHeaderObu) -> Result<(), Refusal>
    ensures { Walked (block_tools.enc (block_tools_of h)) w.old w.new result }
{
    w.flag(h.use_128x128_superblock)?;
    w.flag(h.enable_filter_intra)?;
    w.flag(h.enable_intra_edge_filter)
}

fn hint_tools(w: &mut BitWriter, order_hint: bool, h: SequenceHeaderObu) -> Result<(), Refusal>
    ensures { Walked ((hint_tools order_hint).enc (hint_tools_of h)) w.old w.new result }
{
    let jnt = h.enable_jnt_comp;
    let mvs = h.enable_ref_frame_mvs;
    flag_if(w, order_hint, jnt, false, ENABLE_JNT_COMP, 0)?;
    flag_if(w, order_hint, mvs, false, ENABLE_REF_FRAME_MVS, 0)
}

fn choice(w: &mut BitWriter, seq_choose: bool, seq_force: u32, element: u8) -> Result<(), Refusal>
    ensures { Walked ((choice element).enc (choice_in (seq_choose, seq_force))) w.old w.new result }
{
    w.flag(seq_choose)?;
    f_if(w, !seq_choose, 1, seq_force, 2, element, 0)
}

fn no_choice(
    w: &mut BitWriter,
    seq_choose: bool,
    seq_force: u32,
    element: u8,
) -> Result<(), Refusal>
    ensures { Walked ((no_choice element).enc (choice_in (seq_choose, seq_force))) w.old w.new result }
{
    w.demand(seq_force == 2, element, 0)
}

fn integer_mv(
    w: &mut BitWriter,
    screen: u32,
    seq_choose: bool,
    seq_force: u32,
) -> Result<(), Refusal>
    ensures { Walked ((integer_mv screen).enc (choice_in (seq_choose, seq_force))) w.old w.new result }
{
    if 0 < screen {
        return choice(w, seq_choose, seq_force, SEQ_FORCE_INTEGER_MV);
    }
    no_choice(w, seq_choose, seq_force, SEQ_FORCE_INTEGER_MV)
}

fn hint_bits(w: &mut BitWriter, order_hint: bool, minus_1: u32, bits: u32) -> Result<(), Refusal>
    ensures { Walked ((hint_bits order_hint).enc (hint_bits_in (minus_1, bits))) w.old w.new result }
{
    if order_hint {
        w.f(3, minus_1, ORDER_HINT_BITS_MINUS_1, 0)?;
        return w.demand(bits == minus_1 + 1, ORDER_HINT_BITS, 0);
    }
    w.demand(bits == 0, ORDER_HINT_BITS, 0)
}

fn motion_tools(w: &mut BitWriter, order_hint: bool, h: SequenceHeaderObu) -> Result<(), Refusal>
    ensures { Walked ((motion_tools order_hint).enc (motion_out h)) w.old w.new result }
{
    let screen = h.seq_force_screen_content_tools;
    let element = SEQ_FORCE_SCREEN_CONTENT_TOOLS;
    choice(w, h.seq_choose_screen_content_tools, screen, element)?;
    let seq_choose = h.seq_choose_integer_mv;
    integer_mv(w, screen, seq_choose, h.seq_force_integer_mv)?;
    let minus_1 = h.order_hint_bits_minus_1;
    hint_bits(w, order_hint, minus_1, h.order_hint_bits)
}

fn order_tools(w: &mut BitWriter, h: SequenceHeaderObu) -> Result<(), Refusal>
    ensures { Walked (order_tools.enc (order_out h)) w.old w.new result }
{
    w.flag(h.enable_dual_filter)?;
    w.flag(h.enable_order_hint)?;
    hint_tools(w, h.enable_order_hint, h)?;
    motion_tools(w, h.enable_order_hint, h)
}

fn full_tools(w: &mut BitWriter, h: SequenceHeaderObu) -> Result<(), Refusal>
    ensures { Walked (full_tools.enc (inter_tools_of h)) w.old w.new result }
{
    w.flag(h.enable_interintra_compound)?;
    w.flag(h.enable_masked_compound)?;
    w.flag(h.enable_warped_motion)?;
    order_tools(w, h)
}

fn reduced_motion_tools(w: &mut BitWriter, h: SequenceHeaderObu) -> Result<(), Refusal>
    ensures { Walked (reduced_motion_tools.enc (motion_out h)) w.old w.new result }
{
    let screen = h.seq_force_screen_content_tools;
    let element = SEQ_FORCE_SCREEN_CONTENT_TOOLS;
    no_choice(w, h.seq_choose_screen_content_tools, screen, element)?;
    let seq_choose = h.seq_choose_integer_mv;
    let seq_force = h.seq_force_integer_mv;
    no_choice(w, seq_choose, seq_force, SEQ_FORCE_INTEGER_MV)?;
    hint_bits(w, false, h.order_hint_bits_minus_1, h.order_hint_bits)
}

fn reduced_order_tools(w: &mut BitWriter, h: SequenceHeaderObu) -> Result<(), Refusal>
    ensures { Walked (reduced_order_tools.enc (order_out h)) w.old w.new result }
{
    unset(w, h.enable_dual_filter, ENABLE_DUAL_FILTER)?;
    unset(w, h.enable_order_hint, ENABLE_ORDER_HINT)?;
    hint_tools(w, false, h)?;
    reduced_motion_tools(w, h)
}

fn reduced_tools(w: &mut BitWriter, h: SequenceHeaderObu) -> Result<(), Refusal>
    ensures { Walked (reduced_tools.enc (inter_tools_of h)) w.old w.new result }
{
    unset(w, h.enable_interintra_compound, ENABLE_INTERINTRA_COMPOUND)?;
    unset(w, h.enable_masked_compound, ENABLE_MASKED_COMPOUND)?;
    unset(w, h.enable_warped_motion, ENABLE_WARPED_MOTION)?;
    reduced_order_tools(w, h)
}

pub fn inter_tools(w: &mut BitWriter, reduced: bool, h: SequenceHeaderObu) -> Result<(), Refusal>
    ensures { Walked ((inter_tools reduced).enc (inter_tools_of h)) w.old w.new result }
{
    if reduced {
        return reduced_tools(w, h);
    }
    full_tools(w, h)
}

pub fn filter_tools(w: &mut BitWriter, h: SequenceHeaderObu) -> Result<(), Refusal>
    ensures { Walked (filter_tools.enc (filter_tools_of h)) w.old w.new result }
{
    w.flag(h.enable_superres)?;
    w.flag(h.enable_cdef)?;
    w.flag(h.enable_restoration)
}
