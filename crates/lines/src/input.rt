// Lines out of standard input, by chunks.
ghost use Rattle.std.specs.Prelude.{◌≤◌, length};

use std::io::Read;

// A line of more bytes than the lent slice has; it was passed over.
#[derive(Clone, Copy, Debug)]
pub struct TooLong;

// An input that is read by chunks. Of the last chunk no line has used the bytes from at to end.
#[derive(Drop)]
pub struct LineReader<'a, R: Read> {
    input: R,
    chunk: &'a mut [u8],
    at: usize,
    end: usize,
    ghost in_order: { at ≤ end },
    ghost in_chunk: { end ≤ length chunk.now },
}

// Reads once, into the start of a slice, and answers how many bytes there are: none at the end of the input, or where the read fails.
fn some_read(input: &mut impl Read, buffer: &mut [u8]) -> usize
    ensures { result ≤ length buffer.new }
{
    input.read(buffer).unwrap_or(0)
}

impl<'a, R: Read> LineReader<'a, R> {
    // Nothing has been read.
    pub fn new(input: R, chunk: &'a mut [u8]) -> Self {
        LineReader {
            input,
            chunk,
            at: 0,
            end: 0,
        }
    }

    // Reads the next chunk where nothing is left of the last one. It is empty at the end of the input, or where a read fails.
    fn fill(&mut self) {
        if self.at == self.end {
            self.at = 0;
            self.end = some_read(&mut self.input, self.chunk);
        }
    }

    // The next line, at the start of a lent slice and without its line end, which the last one may lack; none where the input has ended.
    // Nothing says that an input ends, and a proved loop has to: it takes more turns than any run uses up.
    pub fn next_line<'l>(&mut self, line: &'l mut [u8]) -> Option<Result<&'l [u8], TooLong>> {
        let mut count = 0;
        let mut is_long = false;
        for _ in 0..u64::MAX {
            self.fill();
            let part = &self.chunk[self.at..self.end];
            if part.is_empty() {
                if count == 0 && !is_long {
                    return None;
                }
                break;
            }
            let end = part.iter().position(|b| *b == b'\n');
            let text = &part[..end.unwrap_or(part.len())];
            let n = text.len().min(line.len() - count);
            line[count..count + n].copy_from_slice(&text[..n]);
            count += n;
            is_long = is_long || n < text.len();
            self.at += text.len();
            if end.is_some() {
                self.at += 1;
                break;
            }
        }
        if is_long {
            return Some(Err(TooLong));
        }
        Some(Ok(&line[..count]))
    }

    // Calls `f` with each line in turn, up to the first error. As many turns as in `next_line`, for the same reason.
    pub fn try_for_each<E, F: FnMut(Result<&[u8], TooLong>) -> Result<(), E>>(
        &mut self,
        line: &mut [u8],
        mut f: F,
    ) -> Result<(), E>
        requires { F.IsAlwaysCallable f }
    {
        for _ in 0..u64::MAX {
            match self.next_line(line) {
                Some(line) => f(line)?,
                None => return Ok(()),
            }
        }
        Ok(())
    }
}

// Reads until a slice is full, the input ends or a read fails, and answers how many bytes stand at the slice's start.
pub fn read_full(input: &mut impl Read, buffer: &mut [u8]) -> usize
    ensures { result ≤ length buffer.new }
{
    // A `while`: how much a turn fills is the input's to say.
    let mut done = 0;
    while done < buffer.len() {
        let n = some_read(input, &mut buffer[done..]);
        if n == 0 {
            return done;
        }
        done += n;
    }
    done
}
