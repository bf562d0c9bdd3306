// What the exported functions answer, before it is a number: each owes what its export does.
ghost use Rattle.std.specs.Prelude.{◌≡◌};
ghost use Rattle.outcome.specs.Refused.{number_in};
ghost use Rattle.tenahvar.specs.Layout.{LaidOut, Totalled};
ghost use Rattle.tenahvar.specs.Node.{NodeFound};
ghost use Rattle.tenahvar.specs.Slab.{SlabTaken};
ghost use Rattle.tenahvar.specs.Weights.{RangedInto};
ghost use Rattle.tenahvar.specs.Cubes.{cells_at};
ghost use Rattle.tenahvar.specs.Clut.{ClutTaken};

use cell::Cell;
use cubes::Inks;
use outcome::Refusal;

// Writes the rows of a layout's record.
// Stays: (c) each row by a name of its own: the check has no proof where a field that is an array is stored straight.
pub(crate) fn lay_out(
    sizes: &[u8; 16],
    n: usize,
    m: usize,
    grid_strides: &mut [u32; 16],
    grid_filling_size: &mut [u32; 16],
    grid_scale: &mut [f32; 16],
) -> Result<(), Refusal>
    ensures { LaidOut sizes.now n m grid_strides.old grid_filling_size.old grid_scale.old (number_in result) grid_strides.new grid_filling_size.new grid_scale.new }
{
    let lut = layout::layout(*sizes, n, m)?;
    let strides = lut.grid_strides;
    *grid_strides = strides;
    let filling = lut.grid_filling_size;
    *grid_filling_size = filling;
    let scale = lut.grid_scale;
    *grid_scale = scale;
    Ok(())
}

// Counts the entries of a layout's table.
pub(crate) fn count(sizes: &[u8; 16], n: usize, m: usize, total: &mut u64) -> Result<(), Refusal>
    ensures { Totalled sizes.now n m total.old (number_in result) total.new }
{
    let asked = layout::layout(*sizes, n, m)?;
    *total = layout::entry_count(asked);
    Ok(())
}

// Finds the place of a node's first entry.
pub(crate) fn find(
    sizes: &[u8; 16],
    n: usize,
    m: usize,
    table: &[f32],
    coordinates: &[usize],
    offset: &mut usize,
) -> Result<(), Refusal>
    ensures { NodeFound sizes.now n m table.now coordinates.now offset.old (number_in result) offset.new }
{
    let grid = layout::layout(*sizes, n, m)?;
    let first = nodes::node_offset(grid, table, coordinates)?;
    *offset = first.0 as usize;
    Ok(())
}

// Cuts a slab out of a table.
pub(crate) fn cut(
    sizes: &[u8; 16],
    n: usize,
    m: usize,
    table: &[f32],
    j: usize,
    k: usize,
    slab: &mut [f32],
) -> Result<(), Refusal>
    ensures { SlabTaken sizes.now n m table.now j k slab.old (number_in result) slab.new }
{
    let whole = layout::layout(*sizes, n, m)?;
    grid_slab::cut_slab(whole, table, j, k, slab)
}

// Reads a CLUT element, and writes its record's sizes.
// Stays: (c) the sizes by a name of their own, as above.
pub(crate) fn read(
    element: &[u8],
    n: usize,
    m: usize,
    sizes: &mut [u8; 16],
    entries: &mut [f32],
) -> Result<(), Refusal>
    ensures { ClutTaken element.now n m sizes.old entries.old (number_in result) sizes.new entries.new }
{
    let lut = clut::read_clut(element, n, m, entries)?;
    let grid_sizes = lut.grid_sizes;
    *sizes = grid_sizes;
    Ok(())
}

// Writes the cells of the 256 codes one field at a time: on the stack there is never more than one.
// Stays: (a) C's arrays.
pub(crate) fn range(
    g: u8,
    x: &mut [usize; 256],
    x_n: &mut [usize; 256],
    w: &mut [f32; 256],
) -> Result<(), Refusal>
    ensures { RangedInto g x.old x_n.old w.old (number_in result) x.new x_n.new w.new }
{
    for code in 0..256usize {
        let c = weights::ranged_256(g, code as u8)?;
        x[code] = c.x;
        x_n[code] = c.x_n;
        w[code] = c.w;
    }
    Ok(())
}

// The cells of red, green and blue.
pub(crate) fn cells(x: &[usize; 3], x_n: &[usize; 3], w: &[f32; 3]) -> Inks<Cell>
    ensures { result ≡ cells_at x.now x_n.now w.now }
{
    Inks {
        red: Cell {
            x: x[0],
            x_n: x_n[0],
            w: w[0],
        },
        green: Cell {
            x: x[1],
            x_n: x_n[1],
            w: w[1],
        },
        blue: Cell {
            x: x[2],
            x_n: x_n[2],
            w: w[2],
        },
    }
}
