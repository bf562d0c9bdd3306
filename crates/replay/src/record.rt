// Records: a layout's with one place changed where the list says so, or each place listed; and how they are printed.
use crate::print::Lines;
use crate::words::{Words, low_word};
use layout::MultidimensionalLut;
use outcome::Refusal;
use std::io::{self, Write};

// Places 0 to 15 are the strides, 16 to 31 the filling sizes, 32 to 47 the scales, 48 to 63 the sizes, then n and m.
// Stays: (a) the list's places of a record are numbers, by tests/vectors.
fn change(lut: &mut MultidimensionalLut, place: usize, value: usize) {
    let bits = low_word(value);
    let at = place % 16;
    match place / 16 {
        0 => lut.grid_strides[at] = bits,
        1 => lut.grid_filling_size[at] = bits,
        2 => lut.grid_scale[at] = patterns::float(bits),
        3 => lut.grid_sizes[at] = (bits % 256) as u8,
        4 => match at {
            0 => lut.input_inks = value,
            1 => lut.output_inks = value,
            _ => {}
        },
        _ => {}
    }
}

impl Words<'_> {
    // A record whose places are listed one by one from the first one on; those before it are zeros.
    pub(crate) fn record(&mut self, first: usize) -> MultidimensionalLut {
        let mut lut = MultidimensionalLut::default();
        for place in first..66 {
            change(&mut lut, place, self.number());
        }
        lut
    }

    // The layout of sixteen sizes, n and m, which are the last places of a record.
    pub(crate) fn layout(&mut self) -> Result<MultidimensionalLut, Refusal> {
        let given = self.record(48);
        layout::layout(given.grid_sizes, given.input_inks, given.output_inks)
    }

    // The record of a layout, zeros where it is refused, with a place of it changed to a value.
    pub(crate) fn changed_layout(&mut self) -> MultidimensionalLut {
        let mut lut = self.layout().unwrap_or_default();
        let place = self.number();
        change(&mut lut, place, self.number());
        lut
    }
}

impl<W: Write> Lines<W> {
    fn record(&mut self, lut: MultidimensionalLut) -> io::Result<()> {
        self.words(&lut.grid_strides)?;
        self.words(&lut.grid_filling_size)?;
        self.floats(&lut.grid_scale)?;
        for size in lut.grid_sizes {
            self.word(u32::from(size))?;
        }
        self.word(low_word(lut.input_inks))?;
        self.word(low_word(lut.output_inks))
    }

    // The number, and the record: zeros on a refusal.
    pub(crate) fn laid(&mut self, laid: Result<MultidimensionalLut, Refusal>) -> io::Result<()> {
        self.number(outcome::number(laid))?;
        self.record(laid.unwrap_or_default())
    }
}
