// The words that are printed.
use outcome::Refusal;
use std::io::{self, Write};

#[derive(Drop)]
pub(crate) struct Lines<W: Write> {
    pub(crate) out: W,
}

impl<W: Write> Lines<W> {
    pub(crate) fn number(&mut self, value: u32) -> io::Result<()> {
        write!(self.out, "{value}")
    }

    pub(crate) fn digits(&mut self, value: u32) -> io::Result<()> {
        self.out.write_all(&patterns::hex(value))
    }

    // Eight digits after a blank, in one piece.
    pub(crate) fn word(&mut self, value: u32) -> io::Result<()> {
        let [a, b, c, d, e, f, g, h] = patterns::hex(value);
        self.out.write_all(&[b' ', a, b, c, d, e, f, g, h])
    }

    // Each of the values as a word.
    fn each<T: Copy, F: Fn(T) -> u32>(&mut self, part: &[T], word: F) -> io::Result<()>
        requires { F.IsAlwaysCallable word }
    {
        for value in part {
            self.word(word(*value))?;
        }
        Ok(())
    }

    pub(crate) fn words(&mut self, part: &[u32]) -> io::Result<()> {
        self.each(part, |value| value)
    }

    pub(crate) fn floats(&mut self, part: &[f32]) -> io::Result<()> {
        self.each(part, |x| patterns::bits(x))
    }

    // A file's bytes, four to a word, the first counting most; after a word 0 how many more zeros follow it. What is left at the end makes
    // a word of its own.
    pub(crate) fn file(&mut self, part: &[u8]) -> io::Result<()> {
        let mut zeros: Option<u32> = None;
        let (words, rest) = part.as_chunks::<4>();
        for bytes in words {
            let value = u32::from_be_bytes(*bytes);
            zeros = match (value, zeros) {
                (0, Some(more)) => Some(more.wrapping_add(1)),
                (0, None) => {
                    self.word(0)?;
                    Some(0)
                }
                (_, _) => {
                    self.more(zeros)?;
                    self.word(value)?;
                    None
                }
            };
        }
        self.more(zeros)?;
        if rest.is_empty() {
            return Ok(());
        }
        let mut value: u32 = 0;
        for byte in rest {
            value = (value << 8) | u32::from(*byte);
        }
        self.word(value)
    }

    // How many more zeros follow a word 0, where there is one.
    fn more(&mut self, zeros: Option<u32>) -> io::Result<()> {
        match zeros {
            Some(more) => self.word(more),
            None => Ok(()),
        }
    }

    // The words of a call: its number, and the floats that it leaves.
    pub(crate) fn answer(&mut self, answered: Result<(), Refusal>, left: &[f32]) -> io::Result<()> {
        self.number(outcome::number(answered))?;
        self.floats(left)
    }

    pub(crate) fn end(&mut self) -> io::Result<()> {
        self.out.write_all(b"\n")
    }
}
