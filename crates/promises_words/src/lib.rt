// The call that explains an answer once more, with its contract: it does nothing but call it. The wrong programs in must-fail/ are other bodies.
#![tactic(auto)]

ghost use Rattle.std.specs.Prelude.{◌≡◌, length};
ghost use Rattle.words.specs.Sentence.{explained, cut};

pub fn explain(answer: &[u32; 4], text: &mut [u8]) -> u32
    ensures value { result ≡ length (explained answer.now) }
    ensures text_after { text.new ≡ cut (explained answer.now) text.old }
{
    words::explain(answer, text)
}
