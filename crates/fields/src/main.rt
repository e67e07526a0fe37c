// Lists sequence headers: each line of standard input is an OBU in hex. A line that begins with `#` is copied; an empty one is passed over.
#![tactic(auto)]

use lines::input::{LineReader, TooLong};
use lines::parse::hex;
use listing::list::list;
use std::io;

fn copied(rt: &impl Print, line: &[u8]) -> io::Result<()> {
    rt.write_all(line)?;
    rt.write_all(b"\n")
}

fn header(rt: &impl Print, line: &[u8], bytes: &mut [u8]) -> io::Result<()> {
    match hex(line, bytes) {
        Some(n) => {
            if let Some(header) = bytes.get(..n) {
                list(rt, header)?;
            }
        }
        None => rt.write_all(b"bad\n")?,
    }
    rt.write_all(b"\n")
}

fn one_line(rt: &impl Print, line: Result<&[u8], TooLong>, bytes: &mut [u8]) -> io::Result<()> {
    match line {
        Ok([]) => Ok(()),
        Ok(line @ [b'#', ..]) => copied(rt, line),
        Ok(line) => header(rt, line, bytes),
        Err(TooLong) => rt.write_all(b"bad\n\n"),
    }
}

fn main(rt: HostRuntime) -> io::Result<()> {
    let mut chunk = [0u8; 65536];
    let mut line = [0u8; 131072];
    let mut bytes = [0u8; 65536];
    let mut lines = LineReader::new(rt.stdin(), &mut chunk);
    lines.try_for_each(&mut line, |line| one_line(&rt, line, &mut bytes))
}
