// The words of the list: unsigned, in hex, one to eight digits and a blank or a line's end.
ghost use Rattle.std.specs.Prelude.{◌≤◌, length};

// What is left of the list.
#[derive(Drop)]
pub(crate) struct Words<'a> {
    pub(crate) rest: &'a [u8],
}

// Stays: (d) no cast loses bits here, so that what is left out is said.
pub(crate) fn low_word(number: usize) -> u32 {
    (number % 4294967296) as u32
}

impl Words<'_> {
    // The next byte of the list, 0 after the last.
    fn next_byte(&mut self) -> u8 {
        match self.rest.split_first() {
            Some((first, rest)) => {
                self.rest = rest;
                *first
            }
            None => 0,
        }
    }

    // The next word, 0 after the last. A letter's value is 9 more than its low four bits, which only letters have from 64 on.
    pub(crate) fn number(&mut self) -> usize {
        let mut value: usize = 0;
        for _ in 0..9usize {
            let byte = self.next_byte();
            if byte <= b' ' {
                break;
            }
            value = (value << 4) | usize::from(byte % 16 + byte / 64 * 9);
        }
        value
    }

    // The low byte of the next word.
    pub(crate) fn byte(&mut self) -> u8 {
        (self.number() % 256) as u8
    }

    pub(crate) fn word(&mut self) -> u32 {
        low_word(self.number())
    }

    pub(crate) fn float(&mut self) -> f32 {
        patterns::float(self.word())
    }

    // The next word as a count, or the most where that is less.
    pub(crate) fn count(&mut self, most: usize) -> usize
        ensures { result ≤ most }
    {
        self.number().min(most)
    }

    // A count, and the first places of the room, as many: all of it where the count is larger.
    pub(crate) fn part<'r, T>(&mut self, room: &'r mut [T]) -> &'r mut [T]
        ensures { length result.now ≤ length room.old }
    {
        let count = self.count(room.len());
        &mut room[..count]
    }

    // Each place of a part by the rule, which may read.
    pub(crate) fn fill<T: Copy, F: FnMut(&mut Words<'_>) -> T>(
        &mut self,
        part: &mut [T],
        mut next: F,
    )
        requires { F.IsAlwaysCallable next }
    {
        for one in part.iter_mut() {
            *one = next(self);
        }
    }

    // A count, and as many words' bytes.
    pub(crate) fn bytes<'r>(&mut self, room: &'r mut [u8]) -> &'r [u8]
        ensures { length result.now ≤ length room.old }
    {
        let bytes = self.part(room);
        self.fill(bytes, |list| list.byte());
        bytes
    }

    // A count, and as many words as coordinates.
    pub(crate) fn coordinates<'r>(&mut self, room: &'r mut [usize]) -> &'r [usize]
        ensures { length result.now ≤ length room.old }
    {
        let coordinates = self.part(room);
        self.fill(coordinates, |list| list.number());
        coordinates
    }

    // A count, and as many words' floats.
    pub(crate) fn floats<'r>(&mut self, room: &'r mut [f32]) -> &'r mut [f32]
        ensures { length result.now ≤ length room.old }
    {
        let floats = self.part(room);
        self.fill(floats, |list| list.float());
        floats
    }

    // A count, and the byte that as many are all alike.
    pub(crate) fn alike<'r>(&mut self, room: &'r mut [u8]) -> &'r mut [u8]
        ensures { length result.now ≤ length room.old }
    {
        let bytes = self.part(room);
        let byte = self.byte();
        bytes.fill(byte);
        bytes
    }

    // The bytes of a file's next word, the first counting most. After a word 0 stands how many more zeros follow it.
    fn file_word(&mut self, more_zeros: &mut usize) -> [u8; 4] {
        if *more_zeros > 0 {
            *more_zeros -= 1;
            return [0; 4];
        }
        let word = self.number();
        if word == 0 {
            *more_zeros = self.number();
        }
        low_word(word).to_be_bytes()
    }

    // A count, and as many bytes of a file: a word for each four of them.
    pub(crate) fn file<'r>(&mut self, room: &'r mut [u8]) -> &'r [u8]
        ensures { length result.now ≤ length room.old }
    {
        let file = self.part(room);
        let mut more_zeros = 0;
        for four in file.chunks_mut(4) {
            let word = self.file_word(&mut more_zeros);
            for (byte, of_word) in four.iter_mut().zip(&word) {
                *byte = *of_word;
            }
        }
        file
    }
}
