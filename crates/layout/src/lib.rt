// Sizes, strides and the layout record: document 01, with a size for each ink (document 02, E5). The meaning is in specs/Layout.antt.
#![tactic(auto)]

mod places;
mod sizes;

ghost use Rattle.std.specs.Prelude.{◌≡◌, ◌-◌, ◌*◌, take, get_or};
ghost use Rattle.outcome.specs.Outcome.{Decides};
ghost use Rattle.outcome.specs.Refused.{number_in};
ghost use Rattle.binary32.specs.Numbers.{plus_zero, of_whole};
ghost use Rattle.layout.specs.Layout.{is_count, stride, places, zeros, laid_in, laid_of, IsLayout, LaidBy, FillingOf};
ghost use Rattle.layout.specs.Lengths.{length_refusal};
ghost use Rattle.layout.specs.Tested.{Tested, Fills};

use outcome::Refusal;

// The record of a layout. The strides count nodes, the filling sizes count table entries; unused sizes are 0.
#[derive(Clone, Copy)]
pub struct MultidimensionalLut {
    pub grid_strides: [u32; 16],
    pub grid_filling_size: [u32; 16],
    pub grid_scale: [f32; 16],
    pub grid_sizes: [u8; 16],
    pub input_inks: usize,
    pub output_inks: usize,
}

// A record of zeros, which no accepted layout gives.
impl Default for MultidimensionalLut {
    ghost is_default = { λ lut. lut ≡ zeros };

    fn default() -> MultidimensionalLut {
        MultidimensionalLut {
            grid_strides: [0; 16],
            grid_filling_size: [0; 16],
            grid_scale: [0.0; 16],
            grid_sizes: [0; 16],
            input_inks: 0,
            output_inks: 0,
        }
    }
}

// The number of a node in ICC.1's order.
#[derive(Clone, Copy)]
pub struct NodeNumber(pub u32);

// The place of a node's first entry in the table.
#[derive(Clone, Copy)]
pub struct EntryOffset(pub u64);

// A node's m entries stand together. Nothing else turns a node number into an entry offset.
pub fn entry_offset(node: NodeNumber, m: u32) -> EntryOffset
    ensures { result.0 ≡ node.0 * m }
{
    EntryOffset((node.0 as u64) * (m as u64))
}

// The entries of the whole table, where the record is a layout's: those of one line of the first ink, for each line.
pub fn entry_count(lut: MultidimensionalLut) -> u64
    ensures { result ≡ get_or lut.grid_filling_size 0 0 * get_or lut.grid_sizes 0 0 }
{
    (lut.grid_filling_size[0] as u64) * (lut.grid_sizes[0] as u64)
}

// A table shorter than the total is refused, and then not as many inputs or coordinates as inks.
pub fn check_lengths(total: u64, n: usize, table: usize, given: usize) -> Result<(), Refusal>
    ensures { number_in result ≡ length_refusal total n table given 0 }
{
    if (table as u64) < total {
        return Err(Refusal::ShortTable);
    }
    if given != n {
        return Err(Refusal::InputCount);
    }
    Ok(())
}

// A count of inks is 1 to 15.
#[tactic(auto, unfolding(crate::specs::Layout::is_count))]
fn is_count(n: usize) -> bool
    ensures { result ≡ is_count n }
{
    1 <= n && n <= 15
}

// What a layout refuses: the first that applies.
fn check(sizes: [u8; 16], n: usize, m: usize) -> Result<(), Refusal>
    ensures { Tested sizes n m (number_in result) }
{
    if !is_count(n) {
        return Err(Refusal::InputInks);
    }
    if !is_count(m) {
        return Err(Refusal::OutputInks);
    }
    let total = sizes::capped(&sizes[..n], m as u64);
    if total == 0 {
        return Err(Refusal::ZeroSize);
    }
    if sizes::LIMIT < total {
        return Err(Refusal::LargeTotal);
    }
    Ok(())
}

// A row of the record. The last ink's place holds `first`, and each place before it what stands at the next, times the next ink's size.
fn fill(row: &mut [u32; 16], first: u32, sizes: &[u8; 16], n: usize)
    requires { Fills sizes.now n first }
    ensures { row.new ≡ places n (λ i. first * stride (take n sizes.now) i) 1 }
{
    *row = [1u32; 16];
    let mut value = first;
    for i in (0..n).rev() {
        row[i] = value;
        value *= sizes[i] as u32;
    }
}

// The record's rows of scales and of sizes: each ink's own.
fn fill_own(scale: &mut [f32; 16], own: &mut [u8; 16], sizes: &[u8; 16], n: usize)
    requires { Fills sizes.now n 1 }
    ensures { (scale.new ≡ places n (λ i. of_whole (get_or sizes.now i 0 - 1)) plus_zero) × (own.new ≡ places n (λ i. get_or sizes.now i 0) 0) }
{
    *scale = [0.0f32; 16];
    *own = [0u8; 16];
    for ink in (0..n).rev() {
        let size = sizes[ink];
        scale[ink] = (size - 1) as f32;
        own[ink] = size;
    }
}

// The record of sizes that passed every test.
fn record_of(sizes: &[u8; 16], n: usize, m: usize) -> MultidimensionalLut
    requires { Tested sizes.now n m 0 }
    ensures { result ≡ (laid_of sizes.now n m).lut }
{
    let mut grid_strides = [1u32; 16];
    fill(&mut grid_strides, 1, sizes, n);
    let mut grid_filling_size = [1u32; 16];
    fill(&mut grid_filling_size, m as u32, sizes, n);
    let mut grid_scale = [0.0f32; 16];
    let mut grid_sizes = [0u8; 16];
    fill_own(&mut grid_scale, &mut grid_sizes, sizes, n);
    MultidimensionalLut {
        grid_strides,
        grid_filling_size,
        grid_scale,
        grid_sizes,
        input_inks: n,
        output_inks: m,
    }
}

// The layout of the first n of sixteen grid sizes, with n input and m output inks.
#[tactic(auto, using(crate::proofs::BySizes::refused_laid))]
pub fn layout(sizes: [u8; 16], n: usize, m: usize) -> Result<MultidimensionalLut, Refusal>
    ensures { LaidBy sizes n m (laid_in result) }
{
    check(sizes, n, m)?;
    Ok(record_of(&sizes, n, m))
}

// The filling sizes of a layout without its record: where it is accepted `filling` is the record's row, refused nothing is written.
pub fn filling_sizes(
    sizes: &[u8; 16],
    n: usize,
    m: usize,
    filling: &mut [u32; 16],
) -> Result<(), Refusal>
    ensures { FillingOf sizes.now n m filling.old (number_in result) filling.new }
{
    check(*sizes, n, m)?;
    fill(filling, m as u32, sizes, n);
    Ok(())
}

// Whether the record is bit for bit one that an accepted layout gives (refusal 9's test).
pub fn is_layout(lut: MultidimensionalLut) -> bool
    ensures { Decides result (IsLayout lut) }
{
    if !is_count(lut.input_inks) || !is_count(lut.output_inks) {
        return false;
    }
    places::used(&lut) && places::unused(&lut)
}
