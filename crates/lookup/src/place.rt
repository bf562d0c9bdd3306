// The cells of the inks, with their nodes as distances in entries.
ghost use Rattle.std.specs.Prelude.{◌≡◌, ◌≤◌, length, reverse};
ghost use Rattle.outcome.specs.Refused.{number_in};
ghost use Rattle.lookup.specs.Table.{nan_refusal};
ghost use Rattle.lookup.specs.Places.{first_inks};

use cell::Cell;
use layout::MultidimensionalLut;
use outcome::Refusal;

// Each ink's cell, first ink first; a NaN input is refused.
pub(crate) fn place(
    lut: &MultidimensionalLut,
    inputs: &[f32],
    cells: &mut [Cell],
) -> Result<(), Refusal>
    requires few { length inputs.now ≤ 16 }
    requires room { length cells.old ≡ length inputs.now }
    ensures number { number_in result ≡ nan_refusal inputs.now }
    ensures cells { number_in result ≡ 0
        → reverse cells.new
        ≡ first_inks lut.now.grid_filling_size lut.now.grid_sizes inputs.now (length inputs.now) }
{
    for (i, x) in inputs.iter().enumerate() {
        let found = cell::placed(i, *x, lut.grid_sizes[i], lut.grid_filling_size[i]);
        let Some(c) = found else {
            return Err(Refusal::NanInput);
        };
        cells[i] = c;
    }
    Ok(())
}
