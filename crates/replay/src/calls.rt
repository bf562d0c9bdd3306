// Calls with a record.
use crate::{Replay, floats};
use std::io::{self, Write};

impl<W: Write> Replay<'_, W> {
    pub(crate) fn layout(&mut self) -> io::Result<()> {
        let laid = self.list.layout();
        self.out.laid(laid)
    }

    // Both engines' answers with equal buffers. The first one's are printed; where walk's differ that is said, and they follow.
    pub(crate) fn lookup(&mut self) -> io::Result<()> {
        let lut = self.list.changed_layout();
        let table = self.list.table(&mut self.room.table);
        let inputs = self.list.floats(&mut self.room.inputs);
        let left = self.list.floats(&mut self.room.left);
        let room = &mut self.room.walked[..];
        let walked = &mut room[..left.len()];
        walked.copy_from_slice(left);
        let answered = lookup::lookup(lut, table, inputs, left);
        self.out.answer(answered, left)?;
        let again = walk::lookup(lut, table, inputs, walked);
        if again != answered || !floats::same(left, walked) {
            self.out.out.write_all(b" engines differ: ")?;
            self.out.answer(again, walked)?;
        }
        Ok(())
    }

    // The lookup with skipping: its number, how many nodes it read, and what it leaves in the buffer.
    pub(crate) fn skipping(&mut self) -> io::Result<()> {
        let lut = self.list.changed_layout();
        let table = self.list.table(&mut self.room.table);
        let inputs = self.list.floats(&mut self.room.inputs);
        let left = self.list.floats(&mut self.room.left);
        let counted = walk::skipping(lut, table, inputs, left);
        self.out.number(outcome::number(counted))?;
        self.out.word(counted.unwrap_or(0))?;
        self.out.floats(left)
    }

    pub(crate) fn node(&mut self) -> io::Result<()> {
        let lut = self.list.changed_layout();
        let table = self.list.table(&mut self.room.table);
        let coordinates = self.list.coordinates(&mut self.room.coordinates);
        let refused = nodes::check_node(lut, table, coordinates);
        self.out.answer(refused, nodes::node(lut, table, coordinates).unwrap_or(&[]))
    }

    // Cuts ink j at line k out of a table: what that answers, and what it leaves in the buffer.
    pub(crate) fn slab(&mut self) -> io::Result<()> {
        let lut = self.list.record(0);
        let table = self.list.table(&mut self.room.table);
        let j = self.list.number();
        let k = self.list.number();
        let left = self.list.table(&mut self.room.left);
        let answered = grid_slab::cut_slab(lut, table, j, k, left);
        self.out.answer(answered, left)
    }
}
