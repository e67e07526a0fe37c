// Answers case lines: each line of standard input gets a line of standard output (docs/CASE-LINES.md).
#![tactic(auto)]

mod call;
mod show;

use cases::word::Word;
use lines::answer::Text;
use lines::input::{LineReader, TooLong};
use lines::parse::Words;
use std::io;

// The answer of a line with a word; none, if it is malformed.
fn answer(name: &[u8], words: &mut Words, buffer: &mut [u8], out: &mut Text) -> Option<()> {
    match Word::named(name)? {
        Word::Write(writer) => call::write(writer, words, buffer, out),
        Word::Read => call::read(words, buffer, out),
        Word::Payload => call::payload(words, buffer, out),
        Word::ReadPart(reader) => call::read_part(reader, words, buffer, out),
    }
}

// A line with no word, and one whose first word begins with `#`, has no answer.
fn answered(line: Result<&[u8], TooLong>, buffer: &mut [u8], out: &mut Text) {
    let Ok(line) = line else {
        out.text(b"bad\n");
        return;
    };
    let mut words = Words::new(line);
    if let Some(name) = words.next() {
        if !name.starts_with(b"#") && answer(name, &mut words, buffer, out).is_none() {
            out.text(b"bad\n");
        }
    }
}

fn main(rt: HostRuntime) -> io::Result<()> {
    let mut chunk = [0u8; 65536];
    let mut line = [0u8; 200000];
    let mut buffer = [0u8; 100000];
    let mut answers = [0u8; 200100];
    let mut lines = LineReader::new(rt.stdin(), &mut chunk);
    lines.try_for_each(&mut line, |line| {
        let mut out = Text::new(&mut answers);
        answered(line, &mut buffer, &mut out);
        rt.write_all(out.written())
    })
}
