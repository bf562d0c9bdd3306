// The blending steps of the colour lookup, in IEEE 754 binary32: each sum, difference and product is
// rounded once, in the order written. The laws about them are in `proofs/`.
#![tactic(auto)]

ghost use Rattle.std.specs.Prelude.{◌≡◌};
ghost use Rattle.binary32.specs.Blend as Blend;
ghost use Rattle.binary32.specs.Numbers.{unit_of};

// The sum of s and the product of a and b.
pub fn mlaf(s: f32, a: f32, b: f32) -> f32
    ensures { result ≡ Blend.mlaf s a b }
{
    s + a * b
}

// s less the product of a and b.
pub fn neg_mlaf(s: f32, a: f32, b: f32) -> f32
    ensures { result ≡ Blend.neg_mlaf s a b }
{
    s - a * b
}

// The product of a and b, and then the sum with c.
pub fn fmla(a: f32, b: f32, c: f32) -> f32
    ensures { result ≡ Blend.fmla a b c }
{
    a * b + c
}

// From a, at t 0, to b, at t 1: a less a * t, and then the sum with b * t.
pub fn lerp(a: f32, b: f32, t: f32) -> f32
    ensures { result ≡ Blend.lerp a b t }
{
    (a - a * t) + b * t
}

// One ink, from a to b: a * (1 - w) + b * w, where 1 - w is rounded first.
pub fn along(a: f32, b: f32, w: f32) -> f32
    ensures { result ≡ Blend.along a b w }
{
    a * (1.0 - w) + b * w
}

// c0, then the term of ink 1, of ink 2 and of ink 3.
fn three_terms(c0: f32, d1: f32, d2: f32, d3: f32, x: f32, y: f32, z: f32) -> f32
    ensures { result ≡ Blend.terms c0 d1 d2 d3 x y z }
{
    c0 + d1 * x + d2 * y + d3 * z
}

// Three inks with the weights x, y, z, from the eight corners of their cell: in a corner's name stands 0 for the lower and
// 1 for the upper node of ink 1, 2 and 3. From c000 to c111, the ink of the largest weight first.
pub fn tetra(
    c000: f32,
    c100: f32,
    c010: f32,
    c110: f32,
    c001: f32,
    c101: f32,
    c011: f32,
    c111: f32,
    x: f32,
    y: f32,
    z: f32,
) -> f32
    ensures { result ≡ Blend.tetra (Blend.eight c000 c100 c010 c110 c001 c101 c011 c111) x y z }
{
    if x >= y {
        if y >= z {
            return three_terms(c000, c100 - c000, c110 - c100, c111 - c110, x, y, z);
        }
        if x >= z {
            return three_terms(c000, c100 - c000, c111 - c101, c101 - c100, x, y, z);
        }
        return three_terms(c000, c101 - c001, c111 - c101, c001 - c000, x, y, z);
    }
    if x >= z {
        return three_terms(c000, c110 - c010, c010 - c000, c111 - c110, x, y, z);
    }
    if y >= z {
        return three_terms(c000, c111 - c011, c010 - c000, c011 - c010, x, y, z);
    }
    three_terms(c000, c111 - c011, c011 - c001, c001 - c000, x, y, z)
}

// v of `most` as a number from 0 to 1: one rounded division.
#[tactic(auto, unfolding(crate::specs::Numbers::unit_of))]
pub fn unit(v: u16, most: u16) -> f32
    ensures { result ≡ unit_of most v }
{
    v as f32 / most as f32
}
