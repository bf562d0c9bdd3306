// Five inks and more: all corners of the inks from the fourth on into a work array, then pairs folded, ink 4 first.
ghost use Rattle.std.specs.Prelude.{◌≡◌, [], ℕ, ◌+◌, ◌-◌, ◌*◌, ◌^◌, ◌≤◌, ◌<◌, length, get_or};
ghost use Rattle.outcome.specs.Refused.{number_in};
ghost use Rattle.lookup.specs.Places.{answer, reach};
ghost use Rattle.walk.specs.Blocks.{Holds, Gives};
ghost use Rattle.walk.specs.Steps.{steps_at, Weighed};
ghost use Rattle.walk.specs.Walk.{above, blended, Distant};
ghost use Rattle.walk.specs.Calls.{Ready, SettledBy, CountedBy};

use crate::{Axis, Call, Four, cells, corners, count, fold, lanes};
use outcome::Refusal;

// A block of three inks and k more in a part of the table: all corners, then the folds.
// Stays: (d) the part, the inks and the room are lent anew at each level; a struct of them would be made at every call.
fn inner(
    t: &[f32],
    axes: &[Axis; 16],
    k: usize,
    left: usize,
    offs: &[usize],
    work: &mut [f32],
) -> Four
    requires k_bound { (3 + k ≤ 16) × (length offs.now * 4 ≤ length work.old) }
    requires left_in_bounds { reach (steps_at axes.now 0 (k + 3)) + left ≤ length t.now }
    requires distant { Distant (steps_at axes.now 3 k) k offs.now }
    ensures holds { Holds (λ o. blended axes.now k o t.now) left result }
    ensures kept { length work.new ≡ length work.old }
{
    corners::corners(t, axes, left, offs, work);
    fold::folds(work, axes, 3, k);
    lanes::load(work, 0)
}

// Three inks and k more.
fn walk(
    t: &[f32],
    axes: &[Axis; 16],
    k: usize,
    offs: &mut [usize],
    work: &mut [f32],
    out: &mut [f32],
)
    requires k_bound { (k ≤ 12) × (length out.old ≤ 15) × Weighed axes.now 3 }
    requires out_in_bounds { reach (steps_at axes.now 0 (k + 3)) + length out.old ≤ length t.now }
    requires k_in_bounds { (2 ^ k ≤ length offs.old) × (2 ^ k * 4 ≤ length work.old) }
    ensures { Gives (answer t.now (steps_at axes.now 0 (k + 3)))
        out.old out.new }
{
    let offs = corners::distances(axes, 3, k, offs);
    for o in (0..out.len()).step_by(4) {
        let f = inner(&t[o..], axes, k, out.len() - o, offs, work);
        lanes::give(f, o, out);
    }
}

// Three inks and k more, with room for so many corners and for so many lanes of their blocks.
fn roomy<const CORNERS: usize, const LANES: usize>(
    t: &[f32],
    axes: &[Axis; 16],
    k: usize,
    out: &mut [f32],
)
    requires k_bound { (k ≤ 12) × (length out.old ≤ 15) × Weighed axes.now 3 }
    requires out_in_bounds { reach (steps_at axes.now 0 (k + 3)) + length out.old ≤ length t.now }
    requires sizes { (CORNERS ≤ 64) × (LANES ≤ 256) }
    requires room { (2 ^ k ≤ CORNERS) × (2 ^ k * 4 ≤ LANES) }
    ensures { Gives (answer t.now (steps_at axes.now 0 (k + 3)))
        out.old out.new }
{
    let mut offs = [0usize; CORNERS];
    let mut work = [0.0f32; LANES];
    walk(t, axes, k, &mut offs, &mut work, out);
}

// A block of three inks, e more, and j more: the block of e + 3 inks at each corner of the last j, then the folds over those.
fn outer(
    t: &[f32],
    axes: &[Axis; 16],
    e: usize,
    j: usize,
    left: usize,
    offs: &[usize],
    tops: &[usize],
    work: &mut [f32],
    high: &mut [f32],
) -> Four
    requires j_bound { (e + 3 + j ≤ 16) × (length tops.now * 4 ≤ length high.old) × (length offs.now * 4 ≤ length work.old) }
    requires left_in_bounds { (c : ℕ) → c < length tops.now
        → get_or tops.now c 0 + reach (steps_at axes.now 0 (e + 3)) + left ≤ length t.now }
    requires distant { Distant (steps_at axes.now 3 e) e offs.now }
    requires distant_tops { Distant (steps_at axes.now (e + 3) j) j tops.now }
    ensures holds { Holds
        (λ o. above (blended axes.now e o) (steps_at axes.now (e + 3) j) t.now)
        left result }
    ensures kept { (length work.new ≡ length work.old)
        × (length high.new ≡ length high.old) }
{
    for (c, x) in tops.iter().enumerate() {
        let f = inner(&t[*x..], axes, e, left, offs, work);
        lanes::put(high, c * 4, f);
    }
    fold::folds(high, axes, e + 3, j);
    lanes::load(high, 0)
}

// Three inks, e more, and j more.
fn tower(
    t: &[f32],
    axes: &[Axis; 16],
    e: usize,
    j: usize,
    offs: &mut [usize],
    tops: &mut [usize],
    work: &mut [f32],
    high: &mut [f32],
    out: &mut [f32],
)
    requires j_bound { (e + 3 + j ≤ 16) × (length out.old ≤ 15) × Weighed axes.now 3 }
    requires out_in_bounds { reach (steps_at axes.now 0 (j + (e + 3))) + length out.old ≤ length t.now }
    requires e_in_bounds { (2 ^ e ≤ length offs.old) × (2 ^ e * 4 ≤ length work.old) }
    requires j_in_bounds { (2 ^ j ≤ length tops.old) × (2 ^ j * 4 ≤ length high.old) }
    ensures { Gives (answer t.now (steps_at axes.now 0 (j + (e + 3))))
        out.old out.new }
{
    let offs = corners::distances(axes, 3, e, offs);
    let tops = corners::distances(axes, e + 3, j, tops);
    for o in (0..out.len()).step_by(4) {
        let f = outer(&t[o..], axes, e, j, out.len() - o, offs, tops, work, high);
        lanes::give(f, o, out);
    }
}

// Nine inks and j more: room for the corners of six further inks, and for those of six.
fn highest(t: &[f32], axes: &[Axis; 16], j: usize, out: &mut [f32])
    requires j_bound { (j ≤ 6) × (length out.old ≤ 15) × Weighed axes.now 3 }
    requires out_in_bounds { reach (steps_at axes.now 0 (j + 9)) + length out.old ≤ length t.now }
    ensures { Gives (answer t.now (steps_at axes.now 0 (j + 9)))
        out.old out.new }
{
    let mut offs = [0usize; 64];
    let mut tops = [0usize; 64];
    let mut work = [0.0f32; 256];
    let mut high = [0.0f32; 256];
    tower(
        t, axes, 6, j, &mut offs, &mut tops, &mut work, &mut high, out,
    );
}

// Three inks and more, from the part that starts at the lowest corner, and the inks' steps and weights.
fn blend(t: &[f32], n: usize, axes: &[Axis; 16], out: &mut [f32])
    requires le_n { (3 ≤ n) × (n ≤ 15) × (length out.old ≤ 15) }
    requires weighed { Weighed axes.now 3 }
    requires out_in_bounds { reach (steps_at axes.now 0 n) + length out.old ≤ length t.now }
    ensures { Gives (answer t.now (steps_at axes.now 0 n))
        out.old out.new }
{
    let k = n - 3;
    // less room costs less to clear
    if k <= 3 {
        return roomy::<8, 32>(t, axes, k, out);
    }
    if k <= 6 {
        return roomy::<64, 256>(t, axes, k, out);
    }
    highest(t, axes, n - 9, out)
}

// Three inks and more, with the reads.
pub(crate) fn many(call: &Call, answer: &mut [f32]) -> Result<u32, Refusal>
    requires ready { Ready call.now }
    requires some { 3 ≤ length call.now.inputs.now }
    requires room { call.now.m ≤ length answer.old }
    ensures settled { SettledBy call.now answer.old (number_in result) answer.new }
    ensures counted { CountedBy call.now result }
{
    let mut axes = [Axis { step: 0, w: 0.0 }; 16];
    let at = call.cells(&mut axes)?;
    let n = cells::keep(&mut axes, call.inputs.len(), call.skipping);
    blend(&call.table[at..], n, &axes, &mut answer[..call.m]);
    Ok(count::reads_of(n))
}
