// The three blends of one output.
ghost use Rattle.std.specs.Prelude.{◌≡◌, ◌&&◌};
ghost use Rattle.std.specs.Float.Ieee.{lt};
ghost use Rattle.binary32.specs.Blend as Blend;
ghost use Rattle.cubes.specs.Blends as Blends;
ghost use Rattle.cubes.specs.Corners.{corner_at};

use crate::Inks;
use crate::corners::Corners;

// Whether both a and b are above c.
fn both_above(a: f32, b: f32, c: f32) -> bool
    ensures { result ≡ (lt c a && lt c b) }
{
    a > c && b > c
}

// c0, then the term of blue, of red and of green.
// Stays: (d) binary32 has such a sum within, by numbers; here the inks' names say in which order.
fn terms(c0: f32, rise: Inks<f32>, weights: Inks<f32>) -> f32
    ensures { result ≡ Blend.terms c0 rise.blue rise.red rise.green weights.blue weights.red weights.green }
{
    c0 + rise.blue * weights.blue + rise.red * weights.red + rise.green * weights.green
}

// p - q - r + s, left to right.
fn bend(p: f32, q: f32, r: f32, s: f32) -> f32
    ensures { result ≡ Blends.bend p q r s }
{
    p - q - r + s
}

// First case: red and green weigh more than blue; second: green and blue more than red; third the rest.
pub(crate) fn pyramid(c: Corners<f32>, weights: Inks<f32>) -> f32
    ensures { result ≡ Blends.pyramid (corner_at c) weights.red weights.green weights.blue }
{
    let Inks { red, green, blue } = weights;
    if both_above(red, green, blue) {
        let rise = Inks {
            red: c.r - c.low,
            green: c.g - c.low,
            blue: c.rgb - c.rg,
        };
        return terms(c.low, rise, weights) + bend(c.low, c.g, c.r, c.rg) * (red * green);
    }
    if both_above(blue, green, red) {
        let rise = Inks {
            red: c.rgb - c.gb,
            green: c.g - c.low,
            blue: c.b - c.low,
        };
        return terms(c.low, rise, weights) + bend(c.low, c.g, c.b, c.gb) * (green * blue);
    }
    let rise = Inks {
        red: c.r - c.low,
        green: c.rgb - c.rb,
        blue: c.b - c.low,
    };
    terms(c.low, rise, weights) + bend(c.low, c.r, c.b, c.rb) * (blue * red)
}

// First case: blue weighs at least as much as red.
pub(crate) fn prism(c: Corners<f32>, weights: Inks<f32>) -> f32
    ensures { result ≡ Blends.prism (corner_at c) weights.red weights.green weights.blue }
{
    let Inks { red, green, blue } = weights;
    if blue >= red {
        let rise = Inks {
            red: c.rb - c.b,
            green: c.g - c.low,
            blue: c.b - c.low,
        };
        return terms(c.low, rise, weights)
            + bend(c.low, c.g, c.b, c.gb) * (green * blue)
            + bend(c.b, c.gb, c.rb, c.rgb) * (red * green);
    }
    let rise = Inks {
        red: c.r - c.low,
        green: c.g - c.low,
        blue: c.rb - c.r,
    };
    terms(c.low, rise, weights)
        + bend(c.r, c.rg, c.rb, c.rgb) * (green * blue)
        + bend(c.low, c.g, c.r, c.rg) * (red * green)
}

// Along red, then green, then blue.
pub(crate) fn trilinear(c: Corners<f32>, weights: Inks<f32>) -> f32
    ensures { result ≡ Blends.trilinear (corner_at c) weights.red weights.green weights.blue }
{
    let c00 = binary32::lerp(c.low, c.r, weights.red);
    let c10 = binary32::lerp(c.g, c.rg, weights.red);
    let c01 = binary32::lerp(c.b, c.rb, weights.red);
    let c11 = binary32::lerp(c.gb, c.rgb, weights.red);
    let c0 = binary32::lerp(c00, c10, weights.green);
    let c1 = binary32::lerp(c01, c11, weights.green);
    binary32::lerp(c0, c1, weights.blue)
}
