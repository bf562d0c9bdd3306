// The cells of the inks: where the lowest corner stands, and each ink's step and weight.
ghost use Rattle.std.specs.Prelude.{◌≡◌, false, ◌≤◌, ◌<◌, length, get_or};
ghost use Rattle.std.specs.Float.{nan};
ghost use Rattle.std.specs.Float.Ieee.{is_nan};
ghost use Rattle.lists.specs.Lists.{some};
ghost use Rattle.walk.specs.Steps.{steps_at, stepped, lows};
ghost use Rattle.walk.specs.Kept.{skip_of, kept_at};
ghost use Rattle.walk.specs.Calls.{Ready, ink_of, inks_of, UnlessNan};

use crate::{Axis, Call};
use cell::Cell;
use outcome::Refusal;

impl Call<'_> {
    // The cell of ink i, counted from 0, with its nodes as distances in entries; a NaN input is refused.
    pub(crate) fn ink(&self, i: usize) -> Result<Cell, Refusal>
        requires { (i < 16) × (i < length self.now.inputs.now) }
        ensures { UnlessNan (is_nan (get_or self.now.inputs.now i nan)) (ink_of self.now i) result }
    {
        cell::placed(i, self.inputs[i], self.sizes[i], self.filling[i]).ok_or(Refusal::NanInput)
    }

    // The steps and weights of all inks, and how far the lowest corner stands; a NaN input is refused.
    #[tactic(auto, using(crate::proofs::Reading::nans))]
    pub(crate) fn cells(&self, axes: &mut [Axis; 16]) -> Result<usize, Refusal>
        requires { Ready self.now }
        ensures lowest { UnlessNan (some is_nan self.now.inputs.now) (lows (inks_of self.now)) result }
        ensures steps { some is_nan self.now.inputs.now ≡ false
            → steps_at axes.new 0 (length self.now.inputs.now) ≡ stepped (inks_of self.now) }
    {
        let mut at: usize = 0;
        for i in 0..self.inputs.len() {
            let c = self.ink(i)?;
            at += c.x;
            axes[i] = Axis {
                step: c.x_n - c.x,
                w: c.w,
            };
        }
        Ok(at)
    }
}

// Whether an ink of this weight, from the fourth on, is skipped.
pub(crate) fn skipped(w: f32, skipping: bool) -> bool
    ensures { result ≡ skip_of skipping w }
{
    skipping && w == 0.0
}

// Stays: (a) sixteen places and a count, as the library uses no heap.
// Where skipping is asked for, the inks from the fourth on with a weight other than 0 move up, so that no other is among the first.
// Answers how many inks there are then. (Each is stored, and the place is taken or not: no branch to be guessed.)
pub(crate) fn keep(axes: &mut [Axis; 16], n: usize, skipping: bool) -> usize
    requires { (3 ≤ n) × (n ≤ 15) }
    ensures inks { steps_at axes.new 0 result ≡ kept_at (skip_of skipping) axes.old n }
    ensures few { (3 ≤ result) × (result ≤ n) }
{
    if !skipping {
        return n;
    }
    let mut at: usize = 3;
    for i in 3..n {
        let ink = axes[i];
        axes[at] = ink;
        at += usize::from(!skipped(ink.w, true));
    }
    at
}
