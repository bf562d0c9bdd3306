// Table files through C. An entry is lent as its 32 bits: in C the same memory is the table of floats.
ghost use Rattle.std.specs.Prelude.{◌≡◌};
ghost use Rattle.outcome.specs.Refused.{number_in};
ghost use Rattle.layout.specs.Layout.{laid_in};
ghost use Rattle.flash.specs.BySizes.{FileMeasured, TableFiled, Told, FileTold, TableTaken};

use layout::MultidimensionalLut;
use outcome::Refusal;

// Counts the bytes of a layout's table file.
fn measure(sizes: &[u8; 16], n: usize, m: usize, length: &mut u64) -> Result<(), Refusal>
    ensures { FileMeasured sizes.now n m length.old (number_in result) length.new }
{
    let filed = layout::layout(*sizes, n, m)?;
    *length = flash::file_length(layout::entry_count(filed) as u32);
    Ok(())
}

// The layout's number; on 0 `length` is the bytes of a table file.
#[unsafe(no_mangle)]
pub extern "C" fn tenahvar_file_length(
    sizes: &[u8; 16],
    n: usize,
    m: usize,
    length: &mut u64,
) -> u32
    ensures { FileMeasured sizes.now n m length.old result length.new }
{
    outcome::number(measure(sizes, n, m, length))
}

// Lays out, then writes the table file: refusals 1, 2, 3, 5, then 6, 8. On 0 it stands in the first bytes of `file`. `bits` are the
// table's entries, each as its 32 bits: a C caller lends its floats as they stand.
#[unsafe(no_mangle)]
pub extern "C" fn tenahvar_write_table(
    sizes: &[u8; 16],
    n: usize,
    m: usize,
    bits: &[u32],
    file: &mut [u8],
) -> u32
    ensures { TableFiled sizes.now n m bits.now file.old result file.new }
{
    outcome::number(flash::write_by_sizes(sizes, n, m, bits, file))
}

// Writes a record's sizes and counts, where there is one.
// Stays: (c) the sizes by a name of their own: the check has no proof where a field that is an array is stored straight.
#[tactic(auto, using(outcome::proofs::Numbers::not_done), unfolding(layout::specs::Layout::refused_by))]
fn tell(
    read: Result<MultidimensionalLut, Refusal>,
    sizes: &mut [u8; 16],
    n: &mut usize,
    m: &mut usize,
) -> Result<(), Refusal>
    ensures number { number_in result ≡ number_in read }
    ensures told { Told (laid_in read).refusal (laid_in read).lut sizes.old n.old m.old sizes.new n.new m.new }
{
    let lut = read?;
    let grid_sizes = lut.grid_sizes;
    *sizes = grid_sizes;
    *n = lut.input_inks;
    *m = lut.output_inks;
    Ok(())
}

// The layout of a table file, of which block 0 is enough: refusals 17, 18, 19, 20, then 1, 2, 3, 5. On 0 `sizes`, `n` and `m` are the
// record's.
#[unsafe(no_mangle)]
pub extern "C" fn tenahvar_file_layout(
    file: &[u8],
    sizes: &mut [u8; 16],
    n: &mut usize,
    m: &mut usize,
) -> u32
    ensures { FileTold file.now sizes.old n.old m.old result
        sizes.new n.new m.new }
{
    outcome::number(tell(flash::file_layout(file), sizes, n, m))
}

// Reads a table file: refusals 17, 18, 19, 20, then 1, 2, 3, 5, then 17, 18, 19, 20, 8. On 0 `sizes`, `n` and `m` are the record's and
// the first total places of `bits` are set, each to an entry's 32 bits.
#[unsafe(no_mangle)]
pub extern "C" fn tenahvar_read_table(
    file: &[u8],
    sizes: &mut [u8; 16],
    n: &mut usize,
    m: &mut usize,
    bits: &mut [u32],
) -> u32
    ensures { TableTaken file.now sizes.old n.old m.old bits.old result
        sizes.new n.new m.new bits.new }
{
    outcome::number(tell(flash::read_table(file, bits), sizes, n, m))
}
