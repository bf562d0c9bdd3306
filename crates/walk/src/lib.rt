// The lookup as a plain walk, without recursion: document 02, E7. Its answers and refusals are those of `lookup`. And the
// lookup with skipping: E6.
#![tactic(auto)]

mod cells;
mod corners;
mod count;
mod few;
mod fold;
mod lanes;
mod many;
mod tetra;

ghost use Rattle.std.specs.Prelude.{◌≤◌, length};
ghost use Rattle.outcome.specs.Refused.{number_in};
ghost use Rattle.lists.specs.Lists.{last_first};
ghost use Rattle.layout.specs.Layout.{laid_of};
ghost use Rattle.lookup.specs.Places.{Promised, Answered};
ghost use Rattle.lookup.specs.Table.{Looked, LookedBySizes, LookedWith, LookedBySizesWith};
ghost use Rattle.lookup.specs.Idle.{reads_at, LookedSkipping, LookedSkippingBySizes};
ghost use Rattle.walk.specs.Count.{count_in};
ghost use Rattle.walk.specs.Kept.{skip_of, reads_in};
ghost use Rattle.walk.specs.Calls.{skip_by, Ready, SettledBy, CountedBy, Counts};

use layout::MultidimensionalLut;
use outcome::Refusal;

// Four neighbouring outputs of one node, or of one corner. LLVM keeps one in a vector register.
#[derive(Clone, Copy)]
pub struct Four {
    pub a: f32,
    pub b: f32,
    pub c: f32,
    pub d: f32,
}

// An ink from a part's start on: how far its upper node stands, in entries, and its weight.
#[derive(Clone, Copy)]
pub struct Axis {
    pub step: usize,
    pub w: f32,
}

// The tetrahedron of three inks: where its entries stand, counted from the lowest corner, q before and p after an ink's
// step; far: the farthest. And the weights.
#[derive(Clone, Copy)]
pub struct Plan {
    pub p1: usize,
    pub q1: usize,
    pub p2: usize,
    pub q2: usize,
    pub p3: usize,
    pub q3: usize,
    pub far: usize,
    pub rx: f32,
    pub ry: f32,
    pub rz: f32,
}

// A call: each ink's filling size and size, first ink first, the outputs of a node, the table, the inputs, and whether an ink from
// the fourth on whose weight is 0 is skipped.
// Stays: (d) `skipping` is a bool; with a closure over weights each function down to `keep` would be generic, and compiled twice.
#[derive(Clone, Copy)]
pub struct Call<'a> {
    pub filling: &'a [u32; 16],
    pub sizes: &'a [u8; 16],
    pub m: usize,
    pub table: &'a [f32],
    pub inputs: &'a [f32],
    pub skipping: bool,
}

// The m answers, with the reads; a NaN input is refused.
fn write(call: &Call, answer: &mut [f32]) -> Result<u32, Refusal>
    requires ready { Ready call.now }
    requires room { call.now.m ≤ length answer.old }
    ensures settled { SettledBy call.now answer.old (number_in result) answer.new }
    ensures counted { CountedBy call.now result }
{
    let n = call.inputs.len();
    if n <= 2 {
        return few::one_or_two(call, answer);
    }
    if n <= 4 {
        return few::three_or_four(call, answer);
    }
    many::many(call, answer)
}

// After an accepted layout of n inks: a short table is refused, another number of inputs, a short answer buffer, a NaN input.
fn answered(call: &Call, n: usize, answer: &mut [f32]) -> Result<u32, Refusal>
    requires { Promised call.now.filling.now call.now.sizes.now n call.now.m }
    ensures answered { Answered (skip_by call.now) (last_first n call.now.sizes.now) n call.now.m call.now.table.now call.now.inputs.now
        answer.old (number_in result) answer.new }
    ensures counted { Counts (reads_in (skip_by call.now) (last_first n call.now.sizes.now) call.now.inputs.now) result }
{
    let total = (call.filling[0] as u64) * (call.sizes[0] as u64);
    layout::check_lengths(total, n, call.table.len(), call.inputs.len())?;
    if answer.len() < call.m {
        return Err(Refusal::ShortAnswer);
    }
    write(call, answer)
}

// By a record: one that is no layout's is refused first.
fn looked(
    lut: MultidimensionalLut,
    table: &[f32],
    inputs: &[f32],
    answer: &mut [f32],
    skipping: bool,
) -> Result<u32, Refusal>
    ensures looked { LookedWith (skip_of skipping) lut table.now inputs.now answer.old (number_in result) answer.new }
    ensures counted { Counts (reads_at (skip_of skipping) lut inputs.now) result }
{
    if !layout::is_layout(lut) {
        return Err(Refusal::ForeignRecord);
    }
    let call = Call {
        filling: &lut.grid_filling_size,
        sizes: &lut.grid_sizes,
        m: lut.output_inks,
        table,
        inputs,
        skipping,
    };
    answered(&call, lut.input_inks, answer)
}

// By sizes and counts: a layout that is none is refused first.
fn looked_by_sizes(
    sizes: &[u8; 16],
    n: usize,
    m: usize,
    table: &[f32],
    inputs: &[f32],
    answer: &mut [f32],
    skipping: bool,
) -> Result<u32, Refusal>
    ensures looked { LookedBySizesWith (skip_of skipping) sizes.now n m table.now inputs.now answer.old (number_in result) answer.new }
    ensures counted { Counts (reads_at (skip_of skipping) (laid_of sizes.now n m).lut inputs.now) result }
{
    let mut filling = [1u32; 16];
    layout::filling_sizes(sizes, n, m, &mut filling)?;
    let call = Call {
        filling: &filling,
        sizes,
        m,
        table,
        inputs,
        skipping,
    };
    answered(&call, n, answer)
}

// The lookup without recursion: the m answers, in the first entries of `answer`.
pub fn lookup(
    lut: MultidimensionalLut,
    table: &[f32],
    inputs: &[f32],
    answer: &mut [f32],
) -> Result<(), Refusal>
    ensures { Looked lut table.now inputs.now answer.old (number_in result) answer.new }
{
    looked(lut, table, inputs, answer, false)?;
    Ok(())
}

// Lays out, then looks up without recursion.
pub fn lookup_by_sizes(
    sizes: &[u8; 16],
    n: usize,
    m: usize,
    table: &[f32],
    inputs: &[f32],
    answer: &mut [f32],
) -> Result<(), Refusal>
    ensures { LookedBySizes sizes.now n m table.now inputs.now answer.old (number_in result) answer.new }
{
    looked_by_sizes(sizes, n, m, table, inputs, answer, false)?;
    Ok(())
}

// The lookup with skipping: where an ink from the fourth on has weight 0, only the lower part is visited. Answers how many nodes it
// read.
pub fn skipping(
    lut: MultidimensionalLut,
    table: &[f32],
    inputs: &[f32],
    answer: &mut [f32],
) -> Result<u32, Refusal>
    ensures { LookedSkipping lut table.now inputs.now answer.old (number_in result) (count_in result) answer.new }
{
    looked(lut, table, inputs, answer, true)
}

// Lays out, then looks up with skipping.
pub fn skipping_by_sizes(
    sizes: &[u8; 16],
    n: usize,
    m: usize,
    table: &[f32],
    inputs: &[f32],
    answer: &mut [f32],
) -> Result<u32, Refusal>
    ensures { LookedSkippingBySizes sizes.now n m table.now inputs.now answer.old (number_in result) (count_in result) answer.new }
{
    looked_by_sizes(sizes, n, m, table, inputs, answer, true)
}
