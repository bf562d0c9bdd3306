// The refusals 2, 3, 6, 8 and 10 of a cube method.
ghost use Rattle.std.specs.Prelude.{◌≡◌, ◌&&◌, ◌||◌, eqb, length};
ghost use Rattle.outcome.specs.Refused.{number_in};
ghost use Rattle.cubes.specs.Cube.{on_grid, refusal};

use crate::{Cube, Inks};
use cell::Cell;
use outcome::Refusal;

// m is 3 or 4.
fn is_output_count(m: usize) -> bool
    ensures { result ≡ (eqb m 3 || eqb m 4) }
{
    matches!(m, 3 | 4)
}

// Both nodes of a cell are among the lines 0 to g - 1.
#[tactic(auto, unfolding(crate::specs::Cube::on_grid))]
fn on_grid(c: Cell, g: u8) -> bool
    ensures { result ≡ on_grid c g }
{
    let size = g as usize;
    c.x < size && c.x_n < size
}

// The nodes of all three cells are.
fn inside(cells: Inks<Cell>, g: u8) -> bool
    ensures { result ≡ (on_grid cells.red g && on_grid cells.green g && on_grid cells.blue g) }
{
    on_grid(cells.red, g) && on_grid(cells.green, g) && on_grid(cells.blue, g)
}

impl Cube<'_> {
    // The first refusal that applies to the cube, three cells and a buffer with `room`.
    #[tactic(auto, using(crate::proofs::Reach::total_is), unfolding(crate::specs::Cube::refusal))]
    pub(crate) fn check(self, cells: Inks<Cell>, room: usize) -> Result<(), Refusal>
        ensures { let c = self.entry in
            number_in result ≡ refusal cells.red cells.green cells.blue c.g c.m (length c.entries.now) room }
    {
        if !is_output_count(self.m) {
            return Err(Refusal::OutputInks);
        }
        if self.g == 0 {
            return Err(Refusal::ZeroSize);
        }
        let size = self.g as usize;
        if self.entries.len() < size * size * size * self.m {
            return Err(Refusal::ShortTable);
        }
        if room < self.m {
            return Err(Refusal::ShortAnswer);
        }
        if !inside(cells, self.g) {
            return Err(Refusal::OutsideGrid);
        }
        Ok(())
    }
}
