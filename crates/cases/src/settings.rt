// What may stand behind a case's numbers: `;` and settings, in any order, each at most once.
use lines::parse::Words;

#[derive(Clone, Copy, Debug)]
pub struct Given {
    // How many bytes of the lent slice are the buffer that a writer is lent, or the input of a reader.
    pub size: usize,
    pub place: u32,
}

// The buffer that is lent where the line names none.
const ZEROS: usize = 420;

fn place(digits: &[u8]) -> Option<u32> {
    u32::try_from(lines::parse::number(digits)?).ok()
}

// The settings of the words that are left. Where a reader's line names no input, it is empty.
pub fn settings(
    mut words: Words,
    is_input: bool,
    takes_place: bool,
    buffer: &mut [u8],
) -> Option<Given> {
    for b in buffer.iter_mut().take(ZEROS) {
        *b = 0;
    }
    let mut size = None;
    let mut at = None;
    if let Some(mark) = words.next() {
        if mark != b";".as_slice() {
            return None;
        }
    }
    let bytes: &[u8] = if is_input { b"in=" } else { b"buf=" };
    for word in words {
        if let Some(hex) = word.strip_prefix(bytes) {
            if size.is_some() {
                return None;
            }
            size = Some(lines::parse::hex(hex, buffer)?);
        } else {
            let digits = word.strip_prefix(b"place=")?;
            if !takes_place || at.is_some() {
                return None;
            }
            at = Some(place(digits)?);
        }
    }
    Some(Given {
        size: size.unwrap_or(if is_input { 0 } else { ZEROS }),
        place: at.unwrap_or(0),
    })
}
