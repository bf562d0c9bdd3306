// The answers of one ink to four: in one block of four outputs where the count and the table allow it, else output by output.
ghost use Rattle.std.specs.Prelude.{◌≡◌, [], ◌∷◌, ℕ, ◌+◌, ◌*◌, ◌≤◌, ◌<◌, length, drop};
ghost use Rattle.outcome.specs.Refused.{number_in};
ghost use Rattle.lookup.specs.Places.{reach, answer};
ghost use Rattle.walk.specs.Blocks.{at, Gives};
ghost use Rattle.walk.specs.Steps.{tetra_of, fourth, Near};
ghost use Rattle.walk.specs.Calls.{Ready, CubeOf, SettledBy, CountedBy};

use crate::{Call, Plan, cells, count, lanes, tetra};
use cell::Cell;
use outcome::Refusal;

// Output by output.
fn each<F: Fn(usize) -> f32>(out: &mut [f32], answer: F)
    requires { (o : ℕ) → o < length out.old → F.pre answer o }
    ensures { (o : ℕ) → o < length out.old → F.post answer o (at out.new o) }
{
    for o in 0..out.len() {
        out[o] = answer(o);
    }
}

// One ink, with the nodes of its cell as distances in entries.
fn one(part: &[f32], c: Cell, out: &mut [f32])
    requires { (c.x ≤ c.x_n) × (c.x_n + length out.old ≤ length part.now) }
    ensures { Gives (answer part.now (c ∷ [])) out.old out.new }
{
    let along = |lower, upper| binary32::along(lower, upper, c.w);
    if !lanes::one_block(out.len(), part.len() - c.x_n) {
        return each(out, |o| along(part[c.x + o], part[c.x_n + o]));
    }
    let f = lanes::load(part, c.x).with(lanes::load(part, c.x_n), along);
    lanes::give(f, 0, out);
}

// Two inks: along ink 1 at both nodes of ink 2, then along ink 2.
fn two(part: &[f32], c: Cell, d: Cell, out: &mut [f32])
    requires { (c.x ≤ c.x_n) × (d.x ≤ d.x_n) × (d.x_n + c.x_n + length out.old ≤ length part.now) }
    ensures { Gives (answer part.now (d ∷ c ∷ [])) out.old out.new }
{
    let along_c = |lower, upper| binary32::along(lower, upper, c.w);
    let along_d = |lower, upper| binary32::along(lower, upper, d.w);
    let far = d.x_n + c.x_n;
    if !lanes::one_block(out.len(), part.len() - far) {
        return each(out, |o| {
            let below = along_c(part[d.x + c.x + o], part[d.x + c.x_n + o]);
            let above = along_c(part[d.x_n + c.x + o], part[far + o]);
            along_d(below, above)
        });
    }
    let below = lanes::load(part, d.x + c.x).with(lanes::load(part, d.x + c.x_n), along_c);
    let above = lanes::load(part, d.x_n + c.x).with(lanes::load(part, far), along_c);
    lanes::give(below.with(above, along_d), 0, out);
}

// Three inks, in the part that starts at the lowest corner. Inlined at both calls: a lookup of three inks then costs no call
// within.
#[inline(always)]
fn three(t: &[f32], p: Plan, out: &mut [f32])
    requires { Near p × (p.far + length out.old ≤ length t.now) }
    ensures { Gives (λ o. tetra_of p o t.now) out.old out.new }
{
    if !lanes::one_block(out.len(), t.len() - p.far) {
        return each(out, |o| tetra::tetra(t, p, o));
    }
    lanes::give(tetra::tetra4(t, p), 0, out);
}

// Four inks: along ink 4, whose step is h, between the answers of three. `alone`: ink 4 is skipped, and the lower answer is
// taken as it stands.
// Stays: (d) `alone` is one test for all outputs; as an Option of the ink it would be matched once for a block and once for each output.
fn four(t: &[f32], p: Plan, h: usize, w: f32, alone: bool, out: &mut [f32])
    requires { Near p × (p.far + h + length out.old ≤ length t.now) }
    ensures { Gives (λ o. fourth alone (tetra_of p o t.now) (tetra_of p o (drop h t.now)) w)
        out.old out.new }
{
    if alone {
        return three(t, p, out);
    }
    let upper = &t[h..];
    let along = |lower, upper| binary32::lerp(lower, upper, w);
    if !lanes::one_block(out.len(), upper.len() - p.far) {
        return each(
            out,
            |o| along(tetra::tetra(t, p, o), tetra::tetra(upper, p, o)),
        );
    }
    let f = tetra::tetra4(t, p).with(tetra::tetra4(upper, p), along);
    lanes::give(f, 0, out);
}

// One ink or two, with the reads: 2 or 4. No answer is written before every input is a cell.
pub(crate) fn one_or_two(call: &Call, answer: &mut [f32]) -> Result<u32, Refusal>
    requires ready { Ready call.now }
    requires few { length call.now.inputs.now ≤ 2 }
    requires room { call.now.m ≤ length answer.old }
    ensures settled { SettledBy call.now answer.old (number_in result) answer.new }
    ensures counted { CountedBy call.now result }
{
    let c = call.ink(0)?;
    if call.inputs.len() == 1 {
        one(call.table, c, &mut answer[..call.m]);
        return Ok(2);
    }
    let d = call.ink(1)?;
    two(call.table, c, d, &mut answer[..call.m]);
    Ok(4)
}

// The plan of the first three inks, and where their lowest corner stands.
fn cube(call: &Call) -> Result<(Plan, usize), Refusal>
    requires ready { Ready call.now }
    requires some { 3 ≤ length call.now.inputs.now }
    ensures { CubeOf call.now result }
{
    let c = call.ink(0)?;
    let d = call.ink(1)?;
    let e = call.ink(2)?;
    let p = tetra::plan_of(c.x_n - c.x, d.x_n - d.x, e.x_n - e.x, c.w, d.w, e.w);
    Ok((p, c.x + d.x + e.x))
}

// Three inks or four, with the reads.
pub(crate) fn three_or_four(call: &Call, answer: &mut [f32]) -> Result<u32, Refusal>
    requires ready { Ready call.now }
    requires few { (3 ≤ length call.now.inputs.now) × (length call.now.inputs.now ≤ 4) }
    requires room { call.now.m ≤ length answer.old }
    ensures settled { SettledBy call.now answer.old (number_in result) answer.new }
    ensures counted { CountedBy call.now result }
{
    let (p, at) = cube(call)?;
    if call.inputs.len() == 3 {
        three(&call.table[at..], p, &mut answer[..call.m]);
        return Ok(6);
    }
    let h = call.ink(3)?;
    let alone = cells::skipped(h.w, call.skipping);
    four(
        &call.table[at + h.x..],
        p,
        h.x_n - h.x,
        h.w,
        alone,
        &mut answer[..call.m],
    );
    Ok(count::reads_of(3 + usize::from(!alone)))
}
