// Text, put together in a lent slice.
ghost use Rattle.std.specs.Prelude.{◌≤◌, length};
ghost use Rattle.words.specs.Text.{Put};

// The slice, and the place in it where the text so far ends.
#[derive(Drop)]
pub struct Text<'a> {
    pub out: &'a mut [u8],
    pub at: usize,
    ghost in_slice: { at ≤ length out.now },
}

// The bytes of s, put from a place on; the place behind them. (By a loop, which over a known text is compiled to a few stores.)
#[tactic(auto, using(std::proofs::lemmas::List::Edits::paste_more))]
fn put(out: &mut [u8], at: usize, s: &[u8]) -> usize
    requires { at ≤ length out.old }
    ensures put { Put out.old at s.now result out.new }
    ensures inside { result ≤ length out.new }
{
    let n = s.len().min(out.len() - at);
    for i in 0..n {
        out[at + i] = s[i];
    }
    at + n
}

// Each method puts its bytes behind the text so far, and drops what the slice has no room for. (No `fmt::Write`: after an `Err` its contract says nothing.)
impl<'a> Text<'a> {
    ghost use Rattle.std.specs.Prelude.{◌≡◌, [], ◌∷◌, take};
    ghost use Rattle.words.specs.Text as text;
    ghost use Rattle.words.specs.Puts.{Puts};

    // Nothing has been put.
    pub fn new(out: &'a mut [u8]) -> Text<'a>
        ensures same_slice { result.out.ghost_name ≡ out.entry.ghost_name }
        ensures slice { result.out.now ≡ out.old }
        ensures start { result.at ≡ 0 }
    {
        Text { out, at: 0 }
    }

    // What was put.
    pub fn written(&self) -> &[u8]
        ensures { result.now ≡ take self.now.at self.now.out.now }
    {
        &self.out[..self.at]
    }

    pub fn byte(&mut self, b: u8)
        ensures { Puts self.old (b ∷ []) self.new }
    {
        if self.at < self.out.len() {
            self.out[self.at] = b;
            self.at += 1;
        }
    }

    pub fn text(&mut self, s: &[u8])
        ensures { Puts self.old s.now self.new }
    {
        self.at = put(self.out, self.at, s);
    }

    pub fn decimal(&mut self, n: u64)
        ensures { Puts self.old (text.decimal n) self.new }
    {
        if n < 10 {
            self.byte(b'0' + n as u8);
        } else {
            self.decimal(n / 10);
            self.byte(b'0' + (n % 10) as u8);
        }
    }
}
