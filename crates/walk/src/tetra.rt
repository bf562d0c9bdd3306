// The tetrahedron of the first three inks, by their steps.
ghost use Rattle.std.specs.Prelude.{◌≡◌, cond, ◌+◌, ◌≤◌, ◌<◌, max, length, get_or};
ghost use Rattle.binary32.specs.Blend.{mlaf, rise};
ghost use Rattle.walk.specs.Blocks.{lane, at, Lanes, Holds};
ghost use Rattle.walk.specs.Steps.{axis, tetra_of, plan_for, first_three, Near};

use crate::{Axis, Four, Plan, lanes};

// a where the test holds, else b.
fn pick(test: bool, a: usize, b: usize) -> usize
    ensures value { result ≡ cond test a b }
    ensures one { result ≤ max a b }
{
    if test { a } else { b }
}

// The plan from the steps of three inks, from lower to upper node in entries, and their weights. No branch.
pub(crate) fn plan_of(dx: usize, dy: usize, dz: usize, rx: f32, ry: f32, rz: f32) -> Plan
    requires { dx + dy + dz < 18446744073709551616 }
    ensures { result ≡ plan_for dx dy dz rx ry rz }
{
    let y1 = pick(rx >= ry, 0, dy);
    let z1 = pick(rx >= rz, 0, dz);
    let x2 = pick(rx >= ry, dx, 0);
    let z2 = pick(ry >= rz, 0, dz);
    let x3 = pick(rx >= rz, dx, 0);
    let y3 = pick(ry >= rz, dy, 0);
    Plan {
        p1: dx + y1 + z1,
        q1: y1 + z1,
        p2: x2 + dy + z2,
        q2: x2 + z2,
        p3: x3 + y3 + dz,
        q3: x3 + y3,
        far: dx + dy + dz,
        rx,
        ry,
        rz,
    }
}

pub(crate) fn first_three(axes: &[Axis; 16]) -> Plan
    requires { (axis axes.now 0).step + (axis axes.now 1).step + (axis axes.now 2).step < 18446744073709551616 }
    ensures { result ≡ first_three axes.now }
{
    let (x, y, z) = (axes[0], axes[1], axes[2]);
    plan_of(x.step, y.step, z.step, x.w, y.w, z.w)
}

// The sum so far plus, at output o, the rise from q to p times the ink's weight.
fn term(sum: f32, t: &[f32], p: usize, q: usize, o: usize, w: f32) -> f32
    requires { (p + o < length t.now) × (q + o < length t.now) }
    ensures { result ≡ mlaf sum (rise (at t.now (q + o)) (at t.now (p + o))) w }
{
    binary32::mlaf(sum, t[p + o] - t[q + o], w)
}

// Stays: (d) over a trait of f32 and Four, load, minus and mlaf would each take a contract by lanes and two impls, for two lines here.
// The same at outputs 0 to 3.
fn term4(sum: Four, t: &[f32], p: usize, q: usize, w: f32) -> Four
    requires { (p + 4 ≤ length t.now) × (q + 4 ≤ length t.now) }
    ensures { Lanes (λ o. mlaf (lane sum o) (rise (at t.now (q + o)) (at t.now (p + o))) w) result }
{
    let rise = lanes::load(t, p).with(lanes::load(t, q), |to, from| to - from);
    sum.with(rise, |sum, rise| binary32::mlaf(sum, rise, w))
}

// Stays: (d) `Near` as the type's own was tried: `plan_for` of specs/, which builds a plan, would have to prove it there.
// Output o.
pub(crate) fn tetra(t: &[f32], p: Plan, o: usize) -> f32
    requires { Near p × (p.far + o < length t.now) }
    ensures { result ≡ tetra_of p o t.now }
{
    let s1 = term(t[o], t, p.p1, p.q1, o, p.rx);
    let s2 = term(s1, t, p.p2, p.q2, o, p.ry);
    term(s2, t, p.p3, p.q3, o, p.rz)
}

// Outputs 0 to 3.
pub(crate) fn tetra4(t: &[f32], p: Plan) -> Four
    requires { Near p × (p.far + 4 ≤ length t.now) }
    ensures { Lanes (λ o. tetra_of p o t.now) result }
{
    let s1 = term4(lanes::load(t, 0), t, p.p1, p.q1, p.rx);
    let s2 = term4(s1, t, p.p2, p.q2, p.ry);
    term4(s2, t, p.p3, p.q3, p.rz)
}

// Output o where it is one of those that are left, else 0.
fn tetra_left(t: &[f32], p: Plan, o: usize, left: usize) -> f32
    requires { Near p × (p.far + left ≤ length t.now) }
    ensures { o < left → result ≡ tetra_of p o t.now }
{
    if o < left {
        return tetra(t, p, o);
    }
    0.0
}

// At the end of the table: the outputs that are left. It makes the plan again, so that the loop that calls it keeps less.
fn rest(t: &[f32], axes: &[Axis; 16], left: usize) -> Four
    requires { (axis axes.now 0).step + (axis axes.now 1).step + (axis axes.now 2).step + left ≤ length t.now }
    ensures { Holds (λ o. tetra_of (first_three axes.now) o t.now) left result }
{
    let p = first_three(axes);
    Four {
        a: tetra_left(t, p, 0, left),
        b: tetra_left(t, p, 1, left),
        c: tetra_left(t, p, 2, left),
        d: tetra_left(t, p, 3, left),
    }
}

// The block of a part: four outputs where the table has them, else those that are left.
pub(crate) fn block(t: &[f32], p: Plan, axes: &[Axis; 16], left: usize) -> Four
    requires p_value { p ≡ first_three axes.now }
    requires left_in_bounds { (axis axes.now 0).step + (axis axes.now 1).step + (axis axes.now 2).step + left ≤ length t.now }
    ensures { Holds (λ o. tetra_of (first_three axes.now) o t.now) left result }
{
    if t.len() - p.far >= 4 {
        return tetra4(t, p);
    }
    rest(t, axes, left)
}
