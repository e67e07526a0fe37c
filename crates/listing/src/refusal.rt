// A refusal: document 01's number, and its sentence.
use bits::answer::{Numbered, Refusal};
use lines::answer::Text;
use std::io;
use words::sentence::sentence;

pub fn refusal(rt: &impl Print, r: Refusal) -> io::Result<()> {
    let n = Numbered::from(r);
    let mut whole = [0u8; 104];
    let mut out = Text::new(&mut whole);
    sentence(&mut out, &[n.number, n.first, n.second, n.third]);
    rt.write_all(b"refused ")?;
    rt.print(n.number)?;
    rt.write_all(b": ")?;
    rt.write_all(out.written())?;
    rt.write_all(b"\n")
}
