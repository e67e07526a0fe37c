// Answer lines.
use lines::answer::{Text, hex};
use lines::signed::Number;
use sequence_reader::place;

// A space and a number.
fn more(out: &mut Text, n: u32) {
    out.byte(b' ');
    out.decimal(n as u64);
}

fn row(out: &mut Text, record: &[u32]) {
    for n in record {
        more(out, *n);
    }
}

// The numbers of an answer: 0 and the count, or a refusal and its two values, to which 2 adds the width.
fn numbers(out: &mut Text, answer: &[u32; 4]) {
    out.decimal(answer[0] as u64);
    let values = match answer[0] {
        0 => 1,
        2 => 3,
        _ => 2,
    };
    row(out, &answer[1..1 + values]);
}

// A writer's answer, and the whole buffer.
pub fn written(out: &mut Text, answer: &[u32; 4], buffer: &[u8]) {
    numbers(out, answer);
    if !buffer.is_empty() {
        out.byte(b' ');
        hex(out, buffer);
    }
    out.byte(b'\n');
}

// A record that was read, as the numbers of `seq` with 32 operating points; or the refusal.
pub fn record(out: &mut Text, answer: &[u32; 4], record: &[u32; place::NUMBERS]) {
    if answer[0] == 0 {
        out.byte(b'0');
        row(out, &record[..place::OPERATING_POINTS]);
        more(out, 32);
        row(out, &record[place::OPERATING_POINTS..]);
    } else {
        numbers(out, answer);
    }
    out.byte(b'\n');
}

// A part that was read: the bit behind it, and the record's numbers behind its context; or the refusal.
pub fn params(out: &mut Text, answer: &[u32; 4], record: &[i32]) {
    numbers(out, answer);
    if answer[0] == 0 {
        for n in record {
            out.byte(b' ');
            Number::from(*n).put(out);
        }
    }
    out.byte(b'\n');
}

pub fn part(out: &mut Text, answer: &[u32; 2]) {
    out.decimal(answer[0] as u64);
    more(out, answer[1]);
    out.byte(b'\n');
}
