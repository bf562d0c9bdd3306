// Pyramid, prism and trilinear: three cells in a cube of f32 entries. The meaning is in specs/Cube.antt and specs/Blends.antt.
#![tactic(auto)]

mod blends;
mod corners;
mod refusals;

ghost use Rattle.std.specs.Prelude.{◌≡◌, ◌≤◌, length};
ghost use Rattle.outcome.specs.Refused.{number_in};
ghost use Rattle.lists.specs.Buffer.{written};
ghost use Rattle.cubes.specs.Cube.{entries_at, Blended};
ghost use Rattle.cubes.specs.Corners.{corner_at, Reach, blend_of};

use cell::Cell;
use corners::Corners;
use outcome::Refusal;

// Which of the three blends.
#[derive(Clone, Copy)]
pub enum Method {
    Pyramidal,
    Prismatic,
    Trilinear,
}

// Something for each of the three inks.
#[derive(Clone, Copy)]
pub struct Inks<T> {
    pub red: T,
    pub green: T,
    pub blue: T,
}

// A table of three inks of one size: on each axis g lines, at each node m entries.
#[derive(Clone, Copy)]
pub struct Cube<'a> {
    pub g: u8,
    pub m: usize,
    pub entries: &'a [f32],
}

impl Method {
    // The method's blend of what stands at eight corners.
    // Stays: (d) a closure would be chosen by such a match too, at each of its calls.
    fn blend(self, c: Corners<f32>, weights: Inks<f32>) -> f32
        ensures { result ≡ blend_of self (corner_at c) weights.red weights.green weights.blue }
    {
        match self {
            Method::Pyramidal => blends::pyramid(c, weights),
            Method::Prismatic => blends::prism(c, weights),
            Method::Trilinear => blends::trilinear(c, weights),
        }
    }
}

// Writes the m answers.
#[tactic(auto, unfolding(lists::specs::Buffer::written))]
fn write_answers(
    method: Method,
    cube: Cube,
    starts: Corners<usize>,
    weights: Inks<f32>,
    answer: &mut [f32],
)
    requires room { cube.m ≤ length answer.old }
    requires reach { Reach starts cube.m (length cube.entries.now) }
    ensures { let corners = entries_at (corner_at starts) cube.entry.entries.now in
        answer.new ≡ written (λ o. blend_of method (corners o) weights.red weights.green weights.blue) cube.entry.m answer.old }
{
    for output in 0..cube.m {
        answer[output] = method.blend(cube.corners(starts, output), weights);
    }
}

// The m answers, in the first entries of `answer`. Refusals 2, 3, 6, 8 and 10; refused, nothing is written.
pub fn interpolate(
    method: Method,
    cells: Inks<Cell>,
    cube: Cube,
    answer: &mut [f32],
) -> Result<(), Refusal>
    ensures { let c = cube.entry in
        Blended (blend_of method) cells.red cells.green cells.blue c.g c.m c.entries.now answer.old (number_in result) answer.new }
{
    cube.check(cells, answer.len())?;
    let starts = cube.starts(cells);
    let weights = Inks {
        red: cells.red.w,
        green: cells.green.w,
        blue: cells.blue.w,
    };
    write_answers(method, cube, starts, weights, answer);
    Ok(())
}
