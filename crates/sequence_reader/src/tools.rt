// The coding tools of 5.5.1, read.
ghost use Rattle.fill.specs.Fills.{Fills};
ghost use Rattle.reader.specs.Reading.{Said};
ghost use Rattle.sequence.specs.Tools.{block_tools, hint_tools, choice, integer_mv, hint_bits, motion_tools, order_tools, full_tools, inter_tools, filter_tools};
ghost use Rattle.sequence_reader.specs.Layouts as row;
ghost use Rattle.sequence_reader.specs.Places as place;

use crate::optional::*;
use crate::place;
use bits::answer::Refusal;
use reader::BitReader;
use sequence::group::Choice;

#[tactic(auto, using(fill::proofs::Filling::fillings), unfolding(sequence::specs::Tools::block_tools))]
pub fn block_tools(r: &mut BitReader, n: &mut [u32; place::NUMBERS]) -> Result<(), Refusal>
    ensures { Fills ((row.block_tools).from place.tools) block_tools.dec r.old r.new result n.old n.new }
{
    n[place::USE_128X128_SUPERBLOCK] = r.flag()? as u32;
    n[place::ENABLE_FILTER_INTRA] = r.flag()? as u32;
    n[place::ENABLE_INTRA_EDGE_FILTER] = r.flag()? as u32;
    Ok(())
}

#[tactic(auto, using(crate::proofs::Steps::fields), unfolding(sequence::specs::Tools::hint_tools))]
fn hint_tools(
    r: &mut BitReader,
    order_hint: bool,
    n: &mut [u32; place::NUMBERS],
) -> Result<(), Refusal>
    ensures { Fills ((row.hint_tools).from place.hint_tools) (hint_tools order_hint).dec r.old r.new result n.old n.new }
{
    n[place::ENABLE_JNT_COMP] = flag_if(r, order_hint, false)? as u32;
    n[place::ENABLE_REF_FRAME_MVS] = flag_if(r, order_hint, false)? as u32;
    Ok(())
}

#[tactic(auto, using(crate::proofs::Steps::values), unfolding(sequence::specs::Tools::choice))]
fn choice(r: &mut BitReader) -> Result<Choice, Refusal>
    ensures { Said (choice 0).dec r.old r.new result }
{
    let seq_choose = r.flag()?;
    let seq_force = f_if(r, !seq_choose, 1, 2)?;
    Ok(Choice {
        seq_choose,
        seq_force,
    })
}

#[tactic(auto, using(crate::proofs::Steps::values, crate::proofs::Choosing::choice_of), unfolding(sequence::specs::Tools::integer_mv, sequence::specs::Tools::no_choice))]
fn integer_mv(r: &mut BitReader, screen: u32) -> Result<Choice, Refusal>
    ensures { Said (integer_mv screen).dec r.old r.new result }
{
    if 0 < screen {
        return choice(r);
    }
    Ok(Choice {
        seq_choose: false,
        seq_force: 2,
    })
}

#[tactic(auto, using(crate::proofs::Steps::fields), unfolding(sequence::specs::Tools::hint_bits))]
fn hint_bits(
    r: &mut BitReader,
    order_hint: bool,
    n: &mut [u32; place::NUMBERS],
) -> Result<(), Refusal>
    ensures { Fills ((row.hint_bits).from place.hint_bits) (hint_bits order_hint).dec r.old r.new result n.old n.new }
{
    if !order_hint {
        n[place::ORDER_HINT_BITS_MINUS_1] = 0;
        n[place::ORDER_HINT_BITS] = 0;
        return Ok(());
    }
    let minus_1 = r.f(3)?;
    n[place::ORDER_HINT_BITS_MINUS_1] = minus_1;
    n[place::ORDER_HINT_BITS] = minus_1 + 1;
    Ok(())
}

// The tools from seq_choose_screen_content_tools on.
#[tactic(auto, using(crate::proofs::Choosing::choices), unfolding(sequence::specs::Tools::motion_tools))]
fn motion_tools(
    r: &mut BitReader,
    order_hint: bool,
    n: &mut [u32; place::NUMBERS],
) -> Result<(), Refusal>
    ensures { Fills ((row.motion_tools).from place.motion_tools) (motion_tools order_hint).dec r.old r.new result n.old n.new }
{
    let screen = choice(r)?;
    n[place::SEQ_CHOOSE_SCREEN_CONTENT_TOOLS] = screen.seq_choose as u32;
    n[place::SEQ_FORCE_SCREEN_CONTENT_TOOLS] = screen.seq_force;
    let mv = integer_mv(r, screen.seq_force)?;
    n[place::SEQ_CHOOSE_INTEGER_MV] = mv.seq_choose as u32;
    n[place::SEQ_FORCE_INTEGER_MV] = mv.seq_force;
    hint_bits(r, order_hint, n)
}

// The tools from enable_dual_filter on.
#[tactic(auto, using(crate::proofs::Steps::fields), unfolding(sequence::specs::Tools::order_tools))]
fn order_tools(r: &mut BitReader, n: &mut [u32; place::NUMBERS]) -> Result<(), Refusal>
    ensures { Fills ((row.order_tools).from place.order_tools) order_tools.dec r.old r.new result n.old n.new }
{
    n[place::ENABLE_DUAL_FILTER] = r.flag()? as u32;
    let order_hint = r.flag()?;
    n[place::ENABLE_ORDER_HINT] = order_hint as u32;
    hint_tools(r, order_hint, n)?;
    motion_tools(r, order_hint, n)
}

#[tactic(auto, using(crate::proofs::Steps::fields), unfolding(sequence::specs::Tools::full_tools))]
fn full_tools(r: &mut BitReader, n: &mut [u32; place::NUMBERS]) -> Result<(), Refusal>
    ensures { Fills ((row.inter_tools).from place.inter_tools) full_tools.dec r.old r.new result n.old n.new }
{
    n[place::ENABLE_INTERINTRA_COMPOUND] = r.flag()? as u32;
    n[place::ENABLE_MASKED_COMPOUND] = r.flag()? as u32;
    n[place::ENABLE_WARPED_MOTION] = r.flag()? as u32;
    order_tools(r, n)
}

#[tactic(auto, using(crate::proofs::Choosing::choices), unfolding(sequence::specs::Tools::inter_tools))]
pub fn inter_tools(
    r: &mut BitReader,
    reduced: bool,
    n: &mut [u32; place::NUMBERS],
) -> Result<(), Refusal>
    ensures { Fills ((row.inter_tools).from place.inter_tools) (inter_tools reduced).dec r.old r.new result n.old n.new }
{
    if !reduced {
        return full_tools(r, n);
    }
    n[place::ENABLE_INTERINTRA_COMPOUND] = 0;
    n[place::ENABLE_MASKED_COMPOUND] = 0;
    n[place::ENABLE_WARPED_MOTION] = 0;
    n[place::ENABLE_DUAL_FILTER] = 0;
    n[place::ENABLE_ORDER_HINT] = 0;
    n[place::ENABLE_JNT_COMP] = 0;
    n[place::ENABLE_REF_FRAME_MVS] = 0;
    n[place::SEQ_CHOOSE_SCREEN_CONTENT_TOOLS] = 0;
    n[place::SEQ_FORCE_SCREEN_CONTENT_TOOLS] = 2;
    n[place::SEQ_CHOOSE_INTEGER_MV] = 0;
    n[place::SEQ_FORCE_INTEGER_MV] = 2;
    n[place::ORDER_HINT_BITS_MINUS_1] = 0;
    n[place::ORDER_HINT_BITS] = 0;
    Ok(())
}

#[tactic(auto, using(fill::proofs::Filling::fillings), unfolding(sequence::specs::Tools::filter_tools))]
pub fn filter_tools(r: &mut BitReader, n: &mut [u32; place::NUMBERS]) -> Result<(), Refusal>
    ensures { Fills ((row.filter_tools).from place.filter_tools) filter_tools.dec r.old r.new result n.old n.new }
{
    n[place::ENABLE_SUPERRES] = r.flag()? as u32;
    n[place::ENABLE_CDEF] = r.flag()? as u32;
    n[place::ENABLE_RESTORATION] = r.flag()? as u32;
    Ok(())
}
