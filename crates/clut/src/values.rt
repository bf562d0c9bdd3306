// The values of data as entries: each of one byte, or of two with the first counting most.
ghost use Rattle.std.specs.Prelude.{◌≡◌, ℕ, ◌+◌, ◌*◌, ◌≤◌, cond, IfOk, ltb, length};
ghost use Rattle.outcome.specs.Refused.{number_in};
ghost use Rattle.lists.specs.Buffer.{written};
ghost use Rattle.clut.specs.Units.{is_precision, entry_at};
ghost use Rattle.clut.specs.Widths.{bytes_of};

use outcome::Refusal;

// How many bytes a value has.
#[derive(Clone, Copy)]
pub(crate) enum Width {
    One,
    Two,
}

// The width of a precision, which is the number of bytes.
impl TryFrom<usize> for Width {
    type Error = Refusal;

    ghost try_from_gives = { λ precision read.
        (number_in read ≡ cond (is_precision precision) 0 14) × IfOk read (λ width. bytes_of width ≡ precision) };

    #[tactic(auto, unfolding(crate::specs::Units::is_precision))]
    fn try_from(precision: usize) -> Result<Width, Refusal> {
        match precision {
            1 => Ok(Width::One),
            2 => Ok(Width::Two),
            _ => Err(Refusal::Precision),
        }
    }
}

impl Width {
    // The values that so many bytes hold: a quotient, since the bytes of a count of values may be past any number.
    pub(crate) fn held(self, bytes: usize) -> usize
        ensures { (c : ℕ) → ltb result c ≡ ltb bytes (bytes_of self * c) }
    {
        match self {
            Width::One => bytes,
            Width::Two => bytes / 2,
        }
    }

    // Value e as an entry: divided by the largest value.
    fn entry(self, bytes: &[u8], e: usize) -> f32
        requires { bytes_of self * e + bytes_of self ≤ length bytes.now }
        ensures { result ≡ entry_at (bytes_of self) bytes.now e }
    {
        match self {
            Width::One => binary32::unit(u16::from(bytes[e]), u16::from(u8::MAX)),
            Width::Two => binary32::unit(
                u16::from_be_bytes([bytes[2 * e], bytes[2 * e + 1]]),
                u16::MAX,
            ),
        }
    }

    // The first `count` values as entries. Four are read before the first of them is written, so that the compiler divides them together.
    // Stays: (b) written one at a time, they take 1.5 times as long.
    pub(crate) fn read(self, bytes: &[u8], entries: &mut [f32], count: usize)
        requires held { bytes_of self * count ≤ length bytes.now }
        requires room { count ≤ length entries.old }
        ensures { entries.new ≡ written (entry_at (bytes_of self) bytes.now) count entries.old }
    {
        for four in 0..count / 4 {
            let e = 4 * four;
            let a = self.entry(bytes, e);
            let b = self.entry(bytes, e + 1);
            let c = self.entry(bytes, e + 2);
            let d = self.entry(bytes, e + 3);
            entries[e] = a;
            entries[e + 1] = b;
            entries[e + 2] = c;
            entries[e + 3] = d;
        }
        for e in count / 4 * 4..count {
            entries[e] = self.entry(bytes, e);
        }
    }
}
