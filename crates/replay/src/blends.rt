// Cubes of the list.
use crate::Replay;
use cell::Cell;
use cubes::{Cube, Inks, Method};
use std::array;
use std::io::{self, Write};

impl<W: Write> Replay<'_, W> {
    // Three lower nodes, three upper ones, three weights, a size and a count of outputs; then a table, and the call with it.
    pub(crate) fn blend(&mut self, method: Method) -> io::Result<()> {
        let list = &mut self.list;
        let lower: [usize; 3] = array::from_fn(|_| list.number());
        let upper: [usize; 3] = array::from_fn(|_| list.number());
        let weights: [f32; 3] = array::from_fn(|_| list.float());
        let [red, green, blue]: [Cell; 3] = array::from_fn(|i| Cell {
            x: lower[i],
            x_n: upper[i],
            w: weights[i],
        });
        let g = list.byte();
        let m = list.number();
        let entries = list.table(&mut self.room.table);
        let left = list.floats(&mut self.room.left);
        let cube = Cube { g, m, entries };
        let answered = cubes::interpolate(method, Inks { red, green, blue }, cube, left);
        self.out.answer(answered, left)
    }
}
