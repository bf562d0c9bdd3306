// The C interface: the numbers of the crates' answers, on numbers, slices and arrays. What each owes is in specs/.
#![tactic(auto)]

mod answers;
mod files;

ghost use Rattle.cubes.specs.Blends.{pyramid, prism, trilinear};
ghost use Rattle.tenahvar.specs.Layout.{LaidOut, Totalled};
ghost use Rattle.lookup.specs.Table.{LookedBySizes};
ghost use Rattle.lookup.specs.Idle.{LookedSkippingBySizes};
ghost use Rattle.tenahvar.specs.Node.{NodeFound};
ghost use Rattle.tenahvar.specs.Slab.{SlabTaken};
ghost use Rattle.tenahvar.specs.Weights.{RangedInto};
ghost use Rattle.tenahvar.specs.Cubes.{BlendedAt};
ghost use Rattle.clut.specs.Units.{UnitsRead};
ghost use Rattle.tenahvar.specs.Clut.{ClutTaken};

use answers::cells;
use cubes::{Cube, Method};

// The layout's number; on 0 the record's three rows are written, on a refusal nothing is.
#[unsafe(no_mangle)]
pub extern "C" fn tenahvar_layout(
    sizes: &[u8; 16],
    n: usize,
    m: usize,
    grid_strides: &mut [u32; 16],
    grid_filling_size: &mut [u32; 16],
    grid_scale: &mut [f32; 16],
) -> u32
    ensures { LaidOut sizes.now n m grid_strides.old grid_filling_size.old grid_scale.old result grid_strides.new grid_filling_size.new grid_scale.new }
{
    outcome::number(answers::lay_out(sizes, n, m, grid_strides, grid_filling_size, grid_scale))
}

// The layout's number; on 0 `total` is the entries that a table needs.
#[unsafe(no_mangle)]
pub extern "C" fn tenahvar_total(sizes: &[u8; 16], n: usize, m: usize, total: &mut u64) -> u32
    ensures { Totalled sizes.now n m total.old result total.new }
{
    outcome::number(answers::count(sizes, n, m, total))
}

// Lays out, then looks up: refusals 1, 2, 3, 5, then 6, 7, 8, 16. On 0 the first m entries of `answer` are set.
#[unsafe(no_mangle)]
pub extern "C" fn tenahvar_lookup(
    sizes: &[u8; 16],
    n: usize,
    m: usize,
    table: &[f32],
    inputs: &[f32],
    answer: &mut [f32],
) -> u32
    ensures { LookedBySizes sizes.now n m table.now inputs.now answer.old result answer.new }
{
    outcome::number(walk::lookup_by_sizes(sizes, n, m, table, inputs, answer))
}

// Lays out, then looks up with skipping: a lookup's refusals. On 0 the first m entries of `answer` are set. `reads` is how many
// nodes were read, and on a refusal 0.
#[unsafe(no_mangle)]
pub extern "C" fn tenahvar_lookup_skipping(
    sizes: &[u8; 16],
    n: usize,
    m: usize,
    table: &[f32],
    inputs: &[f32],
    answer: &mut [f32],
    reads: &mut u32,
) -> u32
    ensures { LookedSkippingBySizes sizes.now n m table.now inputs.now answer.old result reads.new
        answer.new }
{
    let counted = walk::skipping_by_sizes(sizes, n, m, table, inputs, answer);
    *reads = counted.unwrap_or(0);
    outcome::number(counted)
}

// Lays out, then finds the node: refusals 1, 2, 3, 5, then 6, 7, 10. On 0 `offset` is where its m entries start in the table.
#[unsafe(no_mangle)]
pub extern "C" fn tenahvar_node(
    sizes: &[u8; 16],
    n: usize,
    m: usize,
    table: &[f32],
    coordinates: &[usize],
    offset: &mut usize,
) -> u32
    ensures { NodeFound sizes.now n m table.now coordinates.now offset.old result offset.new }
{
    outcome::number(answers::find(sizes, n, m, table, coordinates, offset))
}

// Lays out, then cuts out a slab: refusals 1, 2, 3, 5, then 6, 11, 12, 8. On 0 the table with ink j, counted from 1, on line k,
// counted from 0, stands in the first entries of `slab`; it is looked up with the other inks' sizes and one ink fewer.
#[unsafe(no_mangle)]
pub extern "C" fn tenahvar_cut_slab(
    sizes: &[u8; 16],
    n: usize,
    m: usize,
    table: &[f32],
    j: usize,
    k: usize,
    slab: &mut [f32],
) -> u32
    ensures { SlabTaken sizes.now n m table.now j k slab.old result slab.new }
{
    outcome::number(answers::cut(sizes, n, m, table, j, k, slab))
}

// Reads a CLUT element: refusals 13, 1, 2, 3, 5, 14, 15, 8. On 0 `sizes` is the record's and the first total places of `entries` are set;
// with them the profile is no longer needed.
#[unsafe(no_mangle)]
pub extern "C" fn tenahvar_read_clut(
    element: &[u8],
    n: usize,
    m: usize,
    sizes: &mut [u8; 16],
    entries: &mut [f32],
) -> u32
    ensures { ClutTaken element.now n m sizes.old entries.old result sizes.new entries.new }
{
    outcome::number(answers::read(element, n, m, sizes, entries))
}

// Values of one byte or of two as numbers from 0 to 1: refusals 14, 15, 8. On 0 the first `count` places of `entries` are set.
// Stays: (a) C gives the precision as a number.
#[unsafe(no_mangle)]
pub extern "C" fn tenahvar_read_units(
    bytes: &[u8],
    precision: usize,
    count: usize,
    entries: &mut [f32],
) -> u32
    ensures { UnitsRead bytes.now precision count entries.old result entries.new }
{
    outcome::number(clut::read_units(bytes, precision, count, entries))
}

// The cells of all 256 codes on an axis of g lines: lower nodes, upper nodes and weights. Refused, nothing is written.
// Stays: (a) C has nodes and weights in arrays of their own.
#[unsafe(no_mangle)]
pub extern "C" fn tenahvar_create_ranged_256(
    g: u8,
    x: &mut [usize; 256],
    x_n: &mut [usize; 256],
    w: &mut [f32; 256],
) -> u32
    ensures { RangedInto g x.old x_n.old w.old result x.new x_n.new w.new }
{
    outcome::number(answers::range(g, x, x_n, w))
}

// The pyramid method: refusals 2, 3, 6, 8, 10.
// Stays: (a) C has three functions, with nodes and weights in arrays of their own.
#[unsafe(no_mangle)]
pub extern "C" fn tenahvar_pyramidal(
    x: &[usize; 3],
    x_n: &[usize; 3],
    w: &[f32; 3],
    g: u8,
    m: usize,
    cube: &[f32],
    answer: &mut [f32],
) -> u32
    ensures { BlendedAt pyramid x.now x_n.now w.now g m cube.now answer.old result answer.new }
{
    let cube = Cube {
        g,
        m,
        entries: cube,
    };
    outcome::number(cubes::interpolate(Method::Pyramidal, cells(x, x_n, w), cube, answer))
}

// The prism method: refusals 2, 3, 6, 8, 10.
// Stays: (a) C has three functions, with nodes and weights in arrays of their own.
#[unsafe(no_mangle)]
pub extern "C" fn tenahvar_prismatic(
    x: &[usize; 3],
    x_n: &[usize; 3],
    w: &[f32; 3],
    g: u8,
    m: usize,
    cube: &[f32],
    answer: &mut [f32],
) -> u32
    ensures { BlendedAt prism x.now x_n.now w.now g m cube.now answer.old result answer.new }
{
    let cube = Cube {
        g,
        m,
        entries: cube,
    };
    outcome::number(cubes::interpolate(Method::Prismatic, cells(x, x_n, w), cube, answer))
}

// The trilinear method: refusals 2, 3, 6, 8, 10.
// Stays: (a) C has three functions, with nodes and weights in arrays of their own.
#[unsafe(no_mangle)]
pub extern "C" fn tenahvar_trilinear(
    x: &[usize; 3],
    x_n: &[usize; 3],
    w: &[f32; 3],
    g: u8,
    m: usize,
    cube: &[f32],
    answer: &mut [f32],
) -> u32
    ensures { BlendedAt trilinear x.now x_n.now w.now g m cube.now answer.old result answer.new }
{
    let cube = Cube {
        g,
        m,
        entries: cube,
    };
    outcome::number(cubes::interpolate(Method::Trilinear, cells(x, x_n, w), cube, answer))
}
