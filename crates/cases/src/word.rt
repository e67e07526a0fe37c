// The word that a case line begins with.

#[derive(Clone, Copy, PartialEq, Eq, Debug)]
pub enum Word {
    Write(Writer),
    Read,
    Payload,
    ReadPart(PartReader),
}

#[derive(Clone, Copy, PartialEq, Eq, Debug)]
pub enum Writer {
    Seq,
    Td,
    Quant,
    Seg,
    Lf,
    Cdef,
    Lr,
}

// A part's reader takes an input, and by numbers that stand before its settings what the part goes by.
#[derive(Clone, Copy, PartialEq, Eq, Debug)]
pub enum PartReader {
    Quant,
    Seg,
    Lf,
    Cdef,
    Lr,
}

impl Word {
    pub fn named(name: &[u8]) -> Option<Word> {
        let word = match name {
            b"seq" => Word::Write(Writer::Seq),
            b"td" => Word::Write(Writer::Td),
            b"quant" => Word::Write(Writer::Quant),
            b"seg" => Word::Write(Writer::Seg),
            b"lf" => Word::Write(Writer::Lf),
            b"cdef" => Word::Write(Writer::Cdef),
            b"lr" => Word::Write(Writer::Lr),
            b"read" => Word::Read,
            b"payload" => Word::Payload,
            b"rquant" => Word::ReadPart(PartReader::Quant),
            b"rseg" => Word::ReadPart(PartReader::Seg),
            b"rlf" => Word::ReadPart(PartReader::Lf),
            b"rcdef" => Word::ReadPart(PartReader::Cdef),
            b"rlr" => Word::ReadPart(PartReader::Lr),
            _ => return None,
        };
        Some(word)
    }
}

impl Writer {
    // Only the parts stand at a bit place.
    pub fn has_place(self) -> bool {
        !matches!(self, Writer::Seq | Writer::Td)
    }
}
