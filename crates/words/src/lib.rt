// An answer in words.
#![tactic(auto)]

mod names; // names.rt: the elements that a refusal names
pub mod put; // put.rt: text into a lent slice
pub mod sentence; // sentence.rt: the sentence of an answer

ghost use Rattle.std.specs.Prelude.{◌≡◌, length};
ghost use Rattle.words.specs.Sentence as form;

use put::Text;
use sentence::sentence;

// Puts as much of s as leaves room for a 0 byte at the start of text, and that byte behind it.
#[tactic(auto, unfolding(crate::specs::Sentence::cut))]
fn cut(s: &[u8], text: &mut [u8])
    ensures { text.new ≡ form.cut s.now text.old }
{
    if text.is_empty() {
        return;
    }
    let n = s.len().min(text.len() - 1);
    text[..n].copy_from_slice(&s[..n]);
    text[n] = 0;
}

// One sentence on an answer, a number and its values, for C: cut where text is too short for it and a 0 byte. Answers the whole
// sentence's length. No sentence has more than 104 bytes (proofs/Longest.antt).
pub fn explain(answer: &[u32; 4], text: &mut [u8]) -> u32
    ensures value { result ≡ length (form.explained answer.now) }
    ensures text_after { text.new ≡ form.cut (form.explained answer.now) text.old }
{
    let mut whole = [0u8; 104];
    let mut out = Text::new(&mut whole);
    sentence(&mut out, answer);
    let length = out.written().len();
    cut(&whole[..length], text);
    length as u32
}
