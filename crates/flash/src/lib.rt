// Table files for the controllers' flash: document 02, E9. The meaning is in specs/File.antt. An entry is lent as its 32 bits, so
// that a NaN keeps its payload.
#![tactic(auto)]

mod blocks;
mod check;
mod words;

ghost use Rattle.std.specs.Prelude.{◌≡◌, ◌≤◌, replicate, slice_index};
ghost use Rattle.lists.specs.Buffer.{written};
ghost use Rattle.outcome.specs.Refused.{number_in};
ghost use Rattle.layout.specs.Layout.{limit, laid_in};
ghost use Rattle.flash.specs.File.{file_length};
ghost use Rattle.flash.specs.Read.{FileLaid, TableRead};
ghost use Rattle.flash.specs.Written.{TableWritten, FileWritten};
ghost use Rattle.flash.specs.BySizes.{TableFiled};

use blocks::Head;
use layout::MultidimensionalLut;
use outcome::Refusal;

// The bytes of a file of so many entries.
#[tactic(auto, unfolding(crate::specs::File::file_length))]
pub fn file_length(total: u32) -> u64
    ensures { result ≡ file_length total }
{
    512 * (1 + (check::blocks_for(total as usize) as u64))
}

// The layout that block 0 asks. Refusals 17 for fewer than 512 bytes, 18, 19, 20 of block 0, then 1, 2, 3, 5. The other blocks need
// not be there, and are not looked at.
#[tactic(auto, unfolding(crate::specs::Refusals::head_refusal, layout::specs::Layout::refused_by))]
pub fn file_layout(file: &[u8]) -> Result<MultidimensionalLut, Refusal>
    ensures { FileLaid file.now (laid_in result) }
{
    if file.len() < 512 {
        return Err(Refusal::FileLength);
    }
    let n = file[4] as usize;
    check::check_block(file, 0, 0, check::head_used(n))?;
    layout::layout(lists::first_16(&file[6..]), n, file[5] as usize)
}

// Reads a file: refusals those of `file_layout`, then 17 for the whole length, then 18, 19, 20 block by block, last 8. Answers the
// layout, and sets the first total places of `bits`. Refused, nothing is written.
#[tactic(auto, using(crate::proofs::Reading::totals), unfolding(crate::specs::Refusals::read_refusal, layout::specs::Layout::refused_by))]
pub fn read_table(file: &[u8], bits: &mut [u32]) -> Result<MultidimensionalLut, Refusal>
    ensures { TableRead file.now bits.old (laid_in result) bits.new }
{
    let lut = file_layout(file)?;
    let total = layout::entry_count(lut) as usize;
    check::check_rest(file, total, bits.len())?;
    blocks::copy_all(file, bits, total);
    Ok(lut)
}

// Writes the file of a layout with so many entries: refusals 6 and 8.
fn write_file(head: &Head, total: usize, bits: &[u32], file: &mut [u8]) -> Result<(), Refusal>
    requires { total ≤ limit }
    ensures { FileWritten head.now.sizes head.now.n head.now.m total bits.now file.old (number_in result) file.new }
{
    if bits.len() < total {
        return Err(Refusal::ShortTable);
    }
    if (file.len() as u64) < file_length(total as u32) {
        return Err(Refusal::ShortAnswer);
    }
    blocks::put_all(head, &bits[..total], file);
    Ok(())
}

// Writes the file of a record and its table: refusals 9, 6, 8. Done, the file stands in the first bytes of `file`, and no others are
// set; only the first total entries count. Refused, nothing is written.
pub fn write_table(lut: MultidimensionalLut, bits: &[u32], file: &mut [u8]) -> Result<(), Refusal>
    ensures { TableWritten lut bits.now file.old (number_in result) file.new }
{
    if !layout::is_layout(lut) {
        return Err(Refusal::ForeignRecord);
    }
    let total = layout::entry_count(lut) as usize;
    let n = lut.input_inks as u8;
    let m = lut.output_inks as u8;
    let sizes = lut.grid_sizes;
    let head = Head { n, m, sizes };
    write_file(&head, total, bits, file)
}

// The sizes of the n inks in use, then zeros.
// Stays: (d) layout makes its row of sizes with the scales; this is all of it that a file needs.
fn used_sizes(sizes: &[u8; 16], n: usize) -> [u8; 16]
    requires { n ≤ 16 }
    ensures { result ≡ written (λ i. slice_index sizes.now i) n (replicate 16 0) }
{
    let mut used = [0u8; 16];
    used[..n].copy_from_slice(&sizes[..n]);
    used
}

// Lays out, then writes the file: refusals 1, 2, 3, 5, then 6, 8, without a record.
pub fn write_by_sizes(
    sizes: &[u8; 16],
    n: usize,
    m: usize,
    bits: &[u32],
    file: &mut [u8],
) -> Result<(), Refusal>
    ensures { TableFiled sizes.now n m bits.now file.old (number_in result) file.new }
{
    let mut filling = [1u32; 16];
    layout::filling_sizes(sizes, n, m, &mut filling)?;
    let total = (filling[0] as u64) * (sizes[0] as u64);
    let head = Head {
        n: n as u8,
        m: m as u8,
        sizes: used_sizes(sizes, n),
    };
    write_file(&head, total as usize, bits, file)
}
