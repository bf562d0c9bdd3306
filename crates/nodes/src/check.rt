// The refusals that come first.
ghost use Rattle.outcome.specs.Refused.{number_in};
ghost use Rattle.nodes.specs.Checks.{Checked};

use layout::MultidimensionalLut;
use outcome::Refusal;

// A record that is no layout's is refused, then the lengths.
// Stays: (d) a lookup by a record begins likewise; a function of both would save it three lines, and its refusals' order could not be read.
pub(crate) fn lengths(lut: MultidimensionalLut, table: usize, given: usize) -> Result<(), Refusal>
    ensures { Checked lut table given (number_in result) }
{
    if !layout::is_layout(lut) {
        return Err(Refusal::ForeignRecord);
    }
    layout::check_lengths(layout::entry_count(lut), lut.input_inks, table, given)
}
