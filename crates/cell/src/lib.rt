// Finding the cell of one ink: which two grid lines an input lies between, and how far along.
#![tactic(auto)]

ghost use Rattle.std.specs.Prelude.{◌≡◌, ◌-◌, ◌<◌, if◌then◌else◌, nat_lt};
ghost use Rattle.std.specs.Float.{binary32};
ghost use Rattle.std.specs.Float.Ieee.{mul};
ghost use Rattle.binary32.specs.Range.{UpTo, Below};
ghost use Rattle.cell.specs.Props.{below-prop};
ghost use Rattle.cell.specs.Rule.{clip_of, scale_of, whole_of, up_of, next_of, cell_at, ink_cell, found_of, scale};

// One axis of a cell: the lower node, the upper node, and the weight of the upper one.
#[derive(Clone, Copy)]
pub struct Cell {
    pub x: usize,
    pub x_n: usize,
    pub w: f32,
}

// The ink of a number, or none of a NaN. Above 1 is 1, above 0 is itself, and all else, both zeros included, is +0.0.
pub fn clip(x: f32) -> Option<f32>
    ensures { result ≡ clip_of x }
{
    if x != x {
        return None;
    }
    if x > 1.0 {
        return Some(1.0);
    }
    if x > 0.0 {
        return Some(x);
    }
    Some(0.0)
}

// Stays: (a) document 02, E3, asks for the whole part from the digits, and `as` takes no float.
// The whole part of a product, from its exponent and its fraction: of the 24 digits, the leading one
// and the fraction, those behind the point are shifted out; below 1 that is all of them.
// (The difference wraps for no product. Written so, the test is no branch that a processor could guess wrong.)
fn whole_part(p: f32) -> usize
    requires { Below 255 p }
    ensures { result ≡ whole_of p }
{
    let b = f32::to_bits(p);
    let behind = 150u32.wrapping_sub(b / 0x80_0000);
    if behind > 23 {
        return 0;
    }
    ((b % 0x80_0000 + 0x80_0000) >> behind) as usize
}

// g - 1, the last grid line. (No grid has size 0; one that had would count as size 1.)
fn last_line(g: u8) -> u8
    ensures { result ≡ g - 1 }
{
    g.saturating_sub(1)
}

// The product that decides a cell, below 255, and its whole part, the lower node.
#[derive(Clone, Copy)]
struct Product {
    p: f32,
    lower: usize,
    ghost below: { Below 255 p } by { below-prop 255 p },
    ghost whole: { lower ≡ whole_of p },
}

impl Product {
    // The ink times g - 1, rounded.
    fn new(ink: f32, g: u8) -> Product
        requires { UpTo 1 ink }
        ensures { result.p ≡ mul binary32 ink (scale_of g) }
    {
        let p = ink * (last_line(g) as f32);
        Product {
            p,
            lower: whole_part(p),
        }
    }

    // It rounded up to a whole number.
    fn up(self) -> usize
        ensures { result ≡ up_of self.p }
    {
        if (self.lower as f32) < self.p {
            return self.lower + 1;
        }
        self.lower
    }

    // The node after the lower one, but never past the last line.
    fn next_node(self, g: u8) -> usize
        ensures { result ≡ next_of (whole_of self.p) g }
    {
        (self.lower + 1).min(last_line(g) as usize)
    }

    // The upper node of ink i, counted from 0: inks 1 to 4 take the product rounded up, inks 5 and up the next node.
    fn upper_node(self, i: usize, g: u8) -> usize
        ensures { result ≡ (if nat_lt i 4 then up_of self.p else next_of (whole_of self.p) g) }
    {
        if i < 4 {
            return self.up();
        }
        self.next_node(g)
    }

    // The cell with an upper node.
    fn cell(self, upper: usize) -> Cell
        ensures { result ≡ cell_at self.p upper }
    {
        Cell {
            x: self.lower,
            x_n: upper,
            w: self.p - (self.lower as f32),
        }
    }
}

// The cell of ink i, counted from 0, in a grid of g lines; none of a NaN.
pub fn ink_cell(i: usize, x: f32, g: u8) -> Option<Cell>
    ensures { result ≡ found_of x (ink_cell i g x) }
{
    let ink = clip(x)?;
    let product = Product::new(ink, g);
    Some(product.cell(product.upper_node(i, g)))
}

// The same with the nodes as distances in table entries, where `filling` entries stand from one node of the ink to the next.
pub fn placed(i: usize, x: f32, g: u8, filling: u32) -> Option<Cell>
    ensures { result ≡ found_of x (scale filling (ink_cell i g x)) }
{
    let c = ink_cell(i, x, g)?;
    let s = filling as usize;
    Some(Cell {
        x: c.x * s,
        x_n: c.x_n * s,
        w: c.w,
    })
}
