// Weights of the list.
use crate::Replay;
use crate::words::low_word;
use cell::Cell;
use std::io::{self, Write};

// What is printed of a refused weight.
const NONE: Cell = Cell {
    x: 0,
    x_n: 0,
    w: 0.0,
};

// One byte more of FNV-1a.
fn summed(sum: u32, byte: u8) -> u32 {
    (sum ^ u32::from(byte)).wrapping_mul(0x01000193)
}

// The low bytes of the nodes, and the weight's bytes, the low one first.
fn summed_cell(sum: u32, cell: Cell) -> u32 {
    let nodes = summed(summed(sum, (cell.x % 256) as u8), (cell.x_n % 256) as u8);
    let mut all = nodes;
    for byte in patterns::bits(cell.w).to_le_bytes() {
        all = summed(all, byte);
    }
    all
}

impl<W: Write> Replay<'_, W> {
    // A cell's upper node and weight, after its lower node.
    fn cell_after(&mut self, cell: Cell) -> io::Result<()> {
        self.out.word(low_word(cell.x_n))?;
        self.out.word(patterns::bits(cell.w))
    }

    pub(crate) fn weight(&mut self) -> io::Result<()> {
        let g = self.list.byte();
        let ranged = weights::ranged_256(g, self.list.byte());
        let cell = ranged.unwrap_or(NONE);
        self.out.number(outcome::number(ranged))?;
        self.out.word(low_word(cell.x))?;
        self.cell_after(cell)
    }

    pub(crate) fn constant(&mut self) -> io::Result<()> {
        let cell = weights::ranged_33(self.list.byte());
        self.out.digits(low_word(cell.x))?;
        self.cell_after(cell)
    }

    pub(crate) fn weights(&mut self) -> io::Result<()> {
        let ranged = weights::create_ranged_256(self.list.byte());
        let mut sum: u32 = 0x811c9dc5;
        for cell in ranged.unwrap_or([NONE; 256]) {
            sum = summed_cell(sum, cell);
        }
        self.out.number(outcome::number(ranged))?;
        self.out.word(sum)
    }
}
