// The lookups of one to fifteen inks.
#![tactic(auto)]

mod place;
mod value;

ghost use Rattle.std.specs.Prelude.{◌≡◌, ◌≤◌, length};
ghost use Rattle.outcome.specs.Refused.{number_in};
ghost use Rattle.lists.specs.Buffer.{left};
ghost use Rattle.layout.specs.Layout.{IsLayout, entries};
ghost use Rattle.lookup.specs.Table.{answer_at, nan_refusal, Looked, LookedBySizes};

use cell::Cell;
use layout::MultidimensionalLut;
use outcome::Refusal;

// The m answers; a NaN input is refused. No answer is written before every input has its cell.
fn write(
    lut: &MultidimensionalLut,
    table: &[f32],
    inputs: &[f32],
    answer: &mut [f32],
) -> Result<(), Refusal>
    requires layout { IsLayout lut.now }
    requires as_many { length inputs.now ≡ lut.now.input_inks }
    requires few { length inputs.now ≤ 16 }
    requires enough { entries lut.now ≤ length table.now }
    requires room { lut.now.output_inks ≤ length answer.old }
    ensures number { number_in result ≡ nan_refusal inputs.now }
    ensures entries { answer.new
        ≡ left (number_in result) (answer_at lut.now table.now inputs.now) lut.now.output_inks answer.old }
{
    // Not of zeros alone: those the compiler clears by memset, and the archive of `first` would ask for that from outside.
    let mut cells = [Cell {
        x: 0,
        x_n: 1,
        w: 0.0,
    }; 16];
    let inks = &mut cells[..inputs.len()];
    place::place(lut, inputs, inks)?;
    value::each(table, inks, lut.output_inks, answer);
    Ok(())
}

// The lookup: the m answers, in the first entries of `answer`.
pub fn lookup(
    lut: MultidimensionalLut,
    table: &[f32],
    inputs: &[f32],
    answer: &mut [f32],
) -> Result<(), Refusal>
    ensures { Looked lut table.now inputs.now answer.old (number_in result) answer.new }
{
    if !layout::is_layout(lut) {
        return Err(Refusal::ForeignRecord);
    }
    let n = lut.input_inks;
    let m = lut.output_inks;
    layout::check_lengths(layout::entry_count(lut), n, table.len(), inputs.len())?;
    if answer.len() < m {
        return Err(Refusal::ShortAnswer);
    }
    write(&lut, table, inputs, answer)
}

// Lays out, then looks up by the record.
pub fn lookup_by_sizes(
    sizes: &[u8; 16],
    n: usize,
    m: usize,
    table: &[f32],
    inputs: &[f32],
    answer: &mut [f32],
) -> Result<(), Refusal>
    ensures { LookedBySizes sizes.now n m table.now inputs.now answer.old (number_in result) answer.new }
{
    let lut = layout::layout(*sizes, n, m)?;
    lookup(lut, table, inputs, answer)
}
