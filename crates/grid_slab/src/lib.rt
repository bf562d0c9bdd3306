// Cutting out a slab: document 02, E1, with a size for each ink (E5). The meaning is in specs/Slab.antt.
#![tactic(auto)]

mod check;
mod runs;

ghost use Rattle.outcome.specs.Refused.{number_in};
ghost use Rattle.grid_slab.specs.Slab.{SlabCut};

use layout::MultidimensionalLut;
use outcome::Refusal;
use runs::Runs;

// The table that remains when ink j, counted from 1, stands on line k, counted from 0: checks 9, 6, 11, 12, 8. It stands in the first entries
// of `slab`. Refused, nothing is written.
pub fn cut_slab(
    lut: MultidimensionalLut,
    table: &[f32],
    j: usize,
    k: usize,
    slab: &mut [f32],
) -> Result<(), Refusal>
    ensures { SlabCut lut table.now j k slab.old (number_in result) slab.new }
{
    check::check(lut, table.len(), j, k, slab.len())?;
    Runs::of(lut, j, k).cut(table, slab);
    Ok(())
}
