// A record's numbers out of a line.
ghost use Rattle.std.specs.Prelude.{◌≡◌};
ghost use Rattle.cases.specs.Fields as form;

use crate::word::{PartReader, Writer};
use Kind::{B, D, F, H, N};
use lines::parse::Words;
use sequence_reader::place;

// What a field holds.
#[derive(Clone, Copy)]
enum Kind {
    F, // a flag: any number, and any but 0 sets it
    N, // 0 to 2^32 - 1
    B, // 0 to 255
    D, // -128 to 127
    H, // -32768 to 32767
}

impl Kind {
    // A number as the 32 bits of a field: two's complement, if it is below 0. None, if the field does not hold it.
    fn code(self, n: i64) -> Option<u32>
        ensures { result ≡ form.coded self n }
    {
        match self {
            F => Some((n != 0) as u32),
            N => u32::try_from(n).ok(),
            B => Some(u32::from(u8::try_from(n).ok()?)),
            D => Some(i32::from(i8::try_from(n).ok()?).cast_unsigned()),
            H => Some(i32::from(i16::try_from(n).ok()?).cast_unsigned()),
        }
    }
}

// A record that is being filled: the words that are left, and how many of its numbers were taken.
#[derive(Drop)]
struct Fields<'a, 'l> {
    words: &'a mut Words<'l>,
    record: &'a mut [u32],
    count: usize,
}

impl Fields<'_, '_> {
    // The next word's number.
    fn next(&mut self, kind: Kind) -> Option<u32> {
        kind.code(lines::parse::number(self.words.next()?)?)
    }

    fn take(&mut self, kind: Kind) -> Option<()> {
        let code = self.next(kind)?;
        *self.record.get_mut(self.count)? = code;
        self.count += 1;
        Some(())
    }

    fn row(&mut self, kinds: &[Kind]) -> Option<()> {
        for kind in kinds {
            self.take(*kind)?;
        }
        Some(())
    }

    fn rows(&mut self, kinds: &[Kind], times: u32) -> Option<()> {
        for _ in 0..times {
            self.row(kinds)?;
        }
        Some(())
    }

    // The number of operating points, 0 to 32, and their numbers; the record's other points are kept.
    fn points(&mut self) -> Option<()> {
        let n = self.next(N)?;
        if n > 32 {
            return None;
        }
        self.rows(&[N, N, N, F, N, N, F, F, N], n)?;
        self.count = place::FRAME_WIDTH_BITS_MINUS_1;
        Some(())
    }

    fn sequence(&mut self) -> Option<()> {
        self.row(&[N, F, F, N, N, N, F, F, F, N, N, F, N, F, B, N, N, N, F, N])?;
        self.points()?;
        self.row(&[B, B, N, N, F, N, N])?;
        self.row(&[F, F, F, F, F, F, F, F, F, F, F, N, F, N, B, N, F, F, F])?;
        self.row(&[F, F, F, F, N, N, N, F, F, F, N, F, N, F])
    }

    fn segmentation(&mut self) -> Option<()> {
        self.row(&[N, F, F, F, F])?;
        self.rows(&[F], 64)?;
        self.rows(&[H], 64)
    }

    fn loop_filter(&mut self) -> Option<()> {
        self.row(&[F, F, N, N, N, N, N, N, F, F])?;
        self.rows(&[D], 10)
    }

    fn cdef(&mut self) -> Option<()> {
        self.row(&[F, F, F, N, N, N])?;
        self.rows(&[N], 32)
    }

    fn previous_deltas(&mut self) -> Option<()> {
        self.row(&[F, F, N])?;
        self.rows(&[D], 10)
    }
}

// The numbers of a writer's record, into a record of zeros.
pub fn numbers(writer: Writer, words: &mut Words, record: &mut [u32]) -> Option<()> {
    let mut fields = Fields {
        words,
        record,
        count: 0,
    };
    match writer {
        Writer::Seq => fields.sequence(),
        Writer::Td => fields.row(&[N, F, F, N, N]),
        Writer::Quant => fields.row(&[N, F, N, D, F, D, D, D, D, F, N, N, N]),
        Writer::Seg => fields.segmentation(),
        Writer::Lf => fields.loop_filter(),
        Writer::Cdef => fields.cdef(),
        Writer::Lr => fields.row(&[F, F, F, N, F, F, F, N, N, N, F, F, N, N]),
    }
}

// What the reader of a part goes by, into a record of zeros.
pub fn context(reader: PartReader, words: &mut Words, record: &mut [u32]) -> Option<()> {
    let mut fields = Fields {
        words,
        record,
        count: 0,
    };
    match reader {
        PartReader::Quant => fields.row(&[N, F]),
        PartReader::Seg => fields.row(&[N]),
        PartReader::Lf => fields.previous_deltas(),
        PartReader::Cdef => fields.row(&[F, F, F, N]),
        PartReader::Lr => fields.row(&[F, F, F, N, F, F, F]),
    }
}
