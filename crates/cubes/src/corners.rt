// Where the eight corners stand in the table, and one output of each.
ghost use Rattle.std.specs.Prelude.{◌≡◌, [], ◌∷◌, ◌*◌, ◌≤◌, ◌<◌, Bool, length};
ghost use Rattle.layout.specs.Order.{index};
ghost use Rattle.cubes.specs.Cube.{sizes, starts, entries_at};
ghost use Rattle.cubes.specs.Corners.{corner_at, Each, Reach, Inside};

use crate::{Cube, Inks};
use cell::Cell;

// Something for each of the eight corners of three cells. A corner is named by the inks that stand at their upper node.
#[derive(Clone, Copy)]
pub(crate) struct Corners<T> {
    pub(crate) low: T,
    pub(crate) r: T,
    pub(crate) g: T,
    pub(crate) b: T,
    pub(crate) rg: T,
    pub(crate) rb: T,
    pub(crate) gb: T,
    pub(crate) rgb: T,
}

impl<T: Copy> Corners<T> {
    // What f gives of each.
    fn map<U, F: Fn(T) -> U>(self, f: F) -> Corners<U>
        requires { Each (F.pre f) self }
        ensures { (i j k : Bool) → F.post f (corner_at self i j k) (corner_at result i j k) }
    {
        Corners {
            low: f(self.low),
            r: f(self.r),
            g: f(self.g),
            b: f(self.b),
            rg: f(self.rg),
            rb: f(self.rb),
            gb: f(self.gb),
            rgb: f(self.rgb),
        }
    }
}

impl Cube<'_> {
    // Where the m entries of a node start.
    fn start(self, x: usize, y: usize, z: usize) -> usize
        requires { (x < self.g) × (y < self.g) × (z < self.g) × (self.m ≤ 4) }
        ensures { result ≡ index (sizes self.entry.g) (z ∷ y ∷ x ∷ []) * self.entry.m }
    {
        let size = self.g as usize;
        ((x * size + y) * size + z) * self.m
    }

    // Where the entries of the eight corners of three cells start.
    pub(crate) fn starts(self, cells: Inks<Cell>) -> Corners<usize>
        requires { Inside cells.red cells.green cells.blue self.g self.m }
        ensures { corner_at result ≡ starts cells.red cells.green cells.blue self.entry.g self.entry.m }
    {
        let x = cells.red;
        let y = cells.green;
        let z = cells.blue;
        Corners {
            low: self.start(x.x, y.x, z.x),
            r: self.start(x.x_n, y.x, z.x),
            g: self.start(x.x, y.x_n, z.x),
            b: self.start(x.x, y.x, z.x_n),
            rg: self.start(x.x_n, y.x_n, z.x),
            rb: self.start(x.x_n, y.x, z.x_n),
            gb: self.start(x.x, y.x_n, z.x_n),
            rgb: self.start(x.x_n, y.x_n, z.x_n),
        }
    }

    // One output of the eight corners.
    pub(crate) fn corners(self, starts: Corners<usize>, output: usize) -> Corners<f32>
        requires { (output < self.m) × Reach starts self.m (length self.entries.now) }
        ensures { corner_at result ≡ entries_at (corner_at starts) self.entry.entries.now output }
    {
        let entries = self.entries;
        starts.map(|start| entries[start + output])
    }
}
