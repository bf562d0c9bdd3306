// What is refused.
ghost use Rattle.std.specs.Prelude.{◌≡◌};
ghost use Rattle.outcome.specs.Refused.{number_in};
ghost use Rattle.grid_slab.specs.Slab.{is_ink};
ghost use Rattle.grid_slab.specs.Runs.{Checked};

use layout::MultidimensionalLut;
use outcome::Refusal;

// Whether j is one of n inks.
#[tactic(auto, unfolding(crate::specs::Slab::is_ink))]
fn is_ink(j: usize, n: usize) -> bool
    ensures { result ≡ is_ink j n }
{
    1 <= j && j <= n
}

// What a cut refuses: the first that applies. The slab is the share of one of ink j's lines.
pub(crate) fn check(
    lut: MultidimensionalLut,
    table: usize,
    j: usize,
    k: usize,
    room: usize,
) -> Result<(), Refusal>
    ensures { Checked lut table j k room (number_in result) }
{
    if !layout::is_layout(lut) {
        return Err(Refusal::ForeignRecord);
    }
    let total = layout::entry_count(lut);
    if (table as u64) < total {
        return Err(Refusal::ShortTable);
    }
    if !is_ink(j, lut.input_inks) || lut.input_inks == 1 {
        return Err(Refusal::NoSuchInk);
    }
    let sizes = lut.grid_sizes;
    let lines = sizes[j - 1];
    if (lines as usize) <= k {
        return Err(Refusal::NoSuchLine);
    }
    if (room as u64) < total / (lines as u64) {
        return Err(Refusal::ShortAnswer);
    }
    Ok(())
}
