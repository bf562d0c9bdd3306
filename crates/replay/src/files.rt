// CLUT elements, values without a header, and table files of the list.
use crate::Replay;
use std::io::{self, Write};

impl<W: Write> Replay<'_, W> {
    // Counts of inks, the old contents of a buffer, and the bytes of an element: what reading it answers, and what it leaves there.
    pub(crate) fn clut(&mut self) -> io::Result<()> {
        let n = self.list.number();
        let m = self.list.number();
        let left = self.list.table(&mut self.room.left);
        let element = self.list.bytes(&mut self.room.bytes);
        let laid = clut::read_clut(element, n, m, left);
        self.out.laid(laid)?;
        self.out.floats(left)
    }

    // A precision, a count of values, the old contents of a buffer, and bytes: what reading them answers, and what it leaves there.
    pub(crate) fn units(&mut self) -> io::Result<()> {
        let precision = self.list.number();
        let count = self.list.number();
        let left = self.list.table(&mut self.room.left);
        let values = self.list.bytes(&mut self.room.bytes);
        let answered = clut::read_units(values, precision, count, left);
        self.out.answer(answered, left)
    }

    // A table, and a buffer of bytes that are all alike: what writing the file answers, and what it leaves in the buffer.
    pub(crate) fn write(&mut self) -> io::Result<()> {
        let lut = self.list.changed_layout();
        let table = self.list.table_bits(&mut self.room.bits);
        let left = self.list.alike(&mut self.room.bytes);
        let written = flash::write_table(lut, table, left);
        self.out.number(outcome::number(written))?;
        self.out.file(left)
    }

    // What is asked, the old contents of a buffer, and a file: what reading it answers, or with 1 its layout alone, and what
    // that leaves in the buffer.
    // Stays: (a) the list's words are numbers, by tests/vectors; what is asked is 0 or 1.
    pub(crate) fn read(&mut self) -> io::Result<()> {
        let asked = self.list.number();
        let left = self.list.table_bits(&mut self.room.bits);
        let file = self.list.file(&mut self.room.bytes);
        let laid = match asked {
            0 => flash::read_table(file, left),
            _ => flash::file_layout(file),
        };
        self.out.laid(laid)?;
        self.out.words(left)
    }
}
