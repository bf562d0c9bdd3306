// A report as text, in ASCII, as it is written.
ghost use Rattle.std.specs.Prelude.{◌≡◌, ℕ, ◌+◌, ◌-◌, ◌*◌, ◌≤◌, ◌<◌, List, [], ◌∷◌, ◌++◌, map, length, take};
ghost use Rattle.probing.specs.Text.{decimal_of, bits_of, spaced, head_of, report};

use std::marker::Model;

// The first `len` of the bytes. The longest report is that of fifteen answers.
// Stays: (a) a buffer and a length, as the library uses no heap and std alone; only `push` and `as_slice` see them.
#[derive(Drop)]
pub(crate) struct Report {
    bytes: [u8; 141],
    len: usize,
}

// Clauses see the bytes that are written.
impl Model for Report {
    ghost Value = { List ℕ };

    ghost view = { λ r. take r.len r.bytes };

    ghost invariant = { λ r. r.len ≤ 141 };
}

impl Report {
    fn push(&mut self, byte: u8)
        requires { length self.old < 141 }
        ensures { self.new ≡ self.old ++ (byte ∷ []) }
    {
        self.bytes[self.len] = byte;
        self.len += 1;
    }

    // Stays: (d) byte by byte, since `copy_from_slice` speaks of the array's part, and the clauses of the bytes so far.
    fn push_all(&mut self, text: &[u8])
        requires { length self.old + length text.now ≤ 141 }
        ensures { self.new ≡ self.old ++ text.now }
    {
        for byte in text {
            self.push(*byte);
        }
    }

    // A number below 100: its tens are left out where there are none.
    // Stays: (d) `write!` promises nothing of what it writes, and never that it is Ok.
    fn push_number(&mut self, n: u32)
        requires { length self.old + 2 ≤ 141 }
        ensures { self.new ≡ self.old ++ decimal_of n }
    {
        if n >= 10 {
            self.push(b'0' + (n / 10 % 10) as u8);
        }
        self.push(b'0' + (n % 10) as u8);
    }

    // The digits of x.
    #[tactic(auto, unfolding(crate::specs::Text::bits_of))]
    fn push_bits(&mut self, x: f32)
        requires { length self.old + 8 ≤ 141 }
        ensures bits { self.new ≡ self.old ++ bits_of x }
        ensures long { length self.new ≡ length self.old + 8 }
    {
        self.push_all(&patterns::hex(patterns::bits(x)));
    }

    // A word, a number and the end of the line.
    #[tactic(auto, unfolding(crate::specs::Text::head_of))]
    fn head(word: &[u8], number: u32) -> Report
        requires { length word.now + 3 ≤ 141 }
        ensures head { result ≡ head_of word.now number }
        ensures short { length result ≤ length word.now + 3 }
    {
        let mut report = Report {
            bytes: [0; 141],
            len: 0,
        };
        report.push_all(word);
        report.push_number(number);
        report.push(b'\n');
        report
    }

    // Stays: (a) a number: the wrong program layout_refusal_for_lookup hands over the layout's, which may be 0.
    #[tactic(auto, unfolding(crate::specs::Text::report))]
    pub(crate) fn refused(number: u32) -> Report
        requires { 0 < number }
        ensures { result ≡ report number [] }
    {
        Report::head(b"refused ", number)
    }

    // The digits of each answer, separated by one blank.
    fn push_spaced(&mut self, answers: &[f32])
        requires { length self.old + 9 * length answers.now ≤ 141 }
        ensures spaced { self.new ≡ self.old ++ spaced (map bits_of answers.now) }
        ensures long { length self.new ≡ length self.old + (9 * length answers.now - 1) }
    {
        let Some((first, others)) = answers.split_first() else {
            return;
        };
        self.push_bits(*first);
        for x in others {
            self.push(b' ');
            self.push_bits(*x);
        }
    }

    #[tactic(auto, unfolding(crate::specs::Text::report))]
    pub(crate) fn accepted(answers: &[f32]) -> Report
        requires { length answers.now ≤ 15 }
        ensures { result ≡ report 0 answers.now }
    {
        let mut report = Report::head(b"ok ", answers.len() as u32);
        report.push_spaced(answers);
        report.push(b'\n');
        report
    }

    pub(crate) fn as_slice(&self) -> &[u8]
        ensures bytes { result.now ≡ self.now }
        ensures fits { length result.now ≤ 141 }
    {
        &self.bytes[..self.len]
    }
}
