// The answers, one output at a time, each in the part of the table that starts at its output.
ghost use Rattle.std.specs.Prelude.{◌≡◌, [], ◌∷◌, ◌+◌, ◌≤◌, ◌<◌, length, reverse};
ghost use Rattle.lists.specs.Buffer.{written};
ghost use Rattle.lookup.specs.Places.{reach, within, answer};

use cell::Cell;

// The entry of the node that three distances lead to.
fn entry(part: &[f32], x: usize, y: usize, z: usize) -> f32
    requires { x + y + z < length part.now }
    ensures { result ≡ within part.now 0 (z ∷ y ∷ x ∷ []) }
{
    part[x + y + z]
}

// Three inks, by the eight nodes of their cell.
fn three(part: &[f32], x: Cell, y: Cell, z: Cell) -> f32
    requires { reach (z ∷ y ∷ x ∷ []) < length part.now }
    ensures { result ≡ answer part.now (z ∷ y ∷ x ∷ []) 0 }
{
    binary32::tetra(
        entry(part, x.x, y.x, z.x),
        entry(part, x.x_n, y.x, z.x),
        entry(part, x.x, y.x_n, z.x),
        entry(part, x.x_n, y.x_n, z.x),
        entry(part, x.x, y.x, z.x_n),
        entry(part, x.x_n, y.x, z.x_n),
        entry(part, x.x, y.x_n, z.x_n),
        entry(part, x.x_n, y.x_n, z.x_n),
        x.w,
        y.w,
        z.w,
    )
}

// The answer of the inks: of none the part's first entry, of three the tetrahedron, else along the last ink, between the
// answers of the others in the parts that start at its lower and its upper node.
fn value(part: &[f32], inks: &[Cell]) -> f32
    requires { reach (reverse inks.now) < length part.now }
    ensures { result ≡ answer part.now (reverse inks.now) 0 }
{
    let [others @ .., last] = inks else {
        return part[0];
    };
    if let [x, y, z] = inks {
        return three(part, *x, *y, *z);
    }
    let lower = value(&part[last.x..], others);
    let upper = value(&part[last.x_n..], others);
    if others.len() < 2 {
        return binary32::along(lower, upper, last.w);
    }
    binary32::lerp(lower, upper, last.w)
}

// Each of the m answers of the inks.
pub(crate) fn each(table: &[f32], inks: &[Cell], m: usize, out: &mut [f32])
    requires inside { reach (reverse inks.now) + m ≤ length table.now }
    requires room { m ≤ length out.old }
    ensures { out.new ≡ written (answer table.now (reverse inks.now)) m out.old }
{
    for o in 0..m {
        out[o] = value(&table[o..], inks);
    }
}
