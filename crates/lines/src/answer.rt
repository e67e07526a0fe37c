// An answer, put together in a lent slice: text and numbers as words::put has them, and bytes in hex.
ghost use Rattle.std.specs.Prelude.{◌≡◌, ◌<◌, ◌≤◌, length};
ghost use Rattle.lines.specs.Hex as form;
ghost use Rattle.words.specs.Puts.{Puts};
ghost use Rattle.words.specs.Text.{Put};

pub use words::put::Text;

// A digit of hex.
fn glyph(d: u8) -> u8
    requires { d < 16 }
    ensures { result ≡ form.glyph d }
{
    if d < 10 { b'0' + d } else { b'A' + (d - 10) }
}

// Bytes in hex, in upper case, put from a place on; the place behind them. What has no room is dropped. (Over the slices alone: a place in a register.)
fn put_hex(out: &mut [u8], at: usize, s: &[u8]) -> usize
    requires { at ≤ length out.old }
    ensures put { Put out.old at (form.upper s.now) result out.new }
    ensures inside { result ≤ length out.new }
{
    let n = s.len().min((out.len() - at) / 2);
    for i in 0..n {
        out[at + 2 * i] = glyph(s[i] / 16);
        out[at + 2 * i + 1] = glyph(s[i] % 16);
    }
    let end = at + 2 * n;
    if n < s.len() && end < out.len() {
        out[end] = glyph(s[n] / 16);
        return end + 1;
    }
    end
}

// Bytes in hex, in upper case.
pub fn hex(out: &mut Text, s: &[u8])
    ensures { Puts out.old (form.upper s.now) out.new }
{
    out.at = put_hex(out.out, out.at, s);
}
