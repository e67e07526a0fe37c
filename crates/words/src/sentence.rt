// The sentence of an answer.
ghost use Rattle.words.specs.Puts.{Puts};
ghost use Rattle.words.specs.Sentence as form;

use crate::names::{element, has_index};
use crate::put::Text;

#[tactic(auto, using(crate::proofs::Puts::puts_then), unfolding(crate::specs::Sentence::place))]
fn place(out: &mut Text, number: u32, e: u32, index: u32)
    ensures { Puts out.old (form.place number e index) out.new }
{
    element(out, e);
    if has_index(number, e) {
        out.byte(b'[');
        out.decimal(index as u64);
        out.byte(b']');
    }
}

#[tactic(auto, using(crate::proofs::Puts::puts_then), unfolding(crate::specs::Sentence::counted))]
fn counted(out: &mut Text, n: u32, one: &[u8], many: &[u8])
    ensures { Puts out.old (form.counted n one.now many.now) out.new }
{
    if n == 1 {
        out.text(one);
    } else {
        out.decimal(n as u64);
        out.text(many);
    }
}

#[tactic(auto, unfolding(crate::specs::Sentence::needed))]
fn needed(out: &mut Text, n: u32)
    ensures { Puts out.old (form.needed n) out.new }
{
    counted(out, n, b"1 byte is needed", b" bytes are needed");
}

#[tactic(auto, unfolding(crate::specs::Sentence::bits_needed))]
fn bits_needed(out: &mut Text, width: u32)
    ensures { Puts out.old (form.bits_needed width) out.new }
{
    if width == 0 {
        out.text(b"no width helps");
    } else {
        counted(out, width, b"1 bit is needed", b" bits are needed");
    }
}

// The sentence of an answer, a number and its values.
#[tactic(auto, using(crate::proofs::Puts::puts_then), unfolding(crate::specs::Sentence::sentence, crate::specs::Sentence::plain, crate::specs::Text::find))]
pub fn sentence(out: &mut Text, answer: &[u32; 4])
    ensures { Puts out.old (form.explained answer.now) out.new }
{
    let [number, first, second, third] = *answer;
    match number {
        0 => out.text(b"done"),
        1 => {
            place(out, 1, first, second);
            out.text(b" is inconsistent");
        }
        2 => {
            place(out, 2, first, second);
            out.text(b" does not fit its field: ");
            bits_needed(out, third);
        }
        3 => {
            out.text(b"the buffer is too short: ");
            needed(out, first);
        }
        4 => out.text(b"the input ends inside header, size or body"),
        5 => out.text(b"a forbidden or reserved bit is set"),
        6 => out.text(b"the size field is wrong"),
        7 => out.text(b"the trailing bits are wrong"),
        8 => out.text(b"the slice is longer than 65536 bytes"),
        _ => {
            out.text(b"this version has no answer ");
            out.decimal(number as u64);
        }
    }
}
