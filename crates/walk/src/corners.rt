// The corners of the further inks: how far each stands, and the block of three inks there.
ghost use Rattle.std.specs.Prelude.{◌≡◌, [], ℕ, ◌+◌, ◌*◌, ◌^◌, ◌≤◌, ◌<◌, length, get_or};
ghost use Rattle.lists.specs.Buffer.{written_from};
ghost use Rattle.lookup.specs.Places.{reach};
ghost use Rattle.walk.specs.Steps.{axis, steps_at, tetra_of, first_three};
ghost use Rattle.walk.specs.Walk.{Distant, Cornered};

use crate::{Axis, lanes, tetra};

// As many distances again, each by d larger.
fn double(offs: &mut [usize], count: usize, d: usize)
    requires count_in_bounds { count + count ≤ length offs.old }
    requires by_index { (c : ℕ) → c < count → get_or offs.old c 0 + d < 18446744073709551616 }
    ensures { offs.new ≡ written_from count (λ c. get_or offs.old c 0 + d) count offs.old }
{
    for c in 0..count {
        offs[count + c] = offs[c] + d;
    }
}

// The distances of the corners of k inks from `first` on, the first of them the highest bit of a corner's number.
pub(crate) fn distances<'a>(
    axes: &[Axis; 16],
    first: usize,
    k: usize,
    offs: &'a mut [usize],
) -> &'a [usize]
    requires k_bound { (first + k ≤ 16) × (2 ^ k ≤ length offs.old) }
    requires k_bound_2 { reach (steps_at axes.now first k) < 18446744073709551616 }
    ensures { Distant (steps_at axes.now first k) k result.now }
{
    offs[0] = 0;
    let mut count: usize = 1;
    for i in (0..k).rev() {
        double(offs, count, axes[first + i].step);
        count *= 2;
    }
    &offs[..count]
}

// The blocks of three inks at all corners: that of corner c stands in work from 4 c on.
pub(crate) fn corners(t: &[f32], axes: &[Axis; 16], left: usize, offs: &[usize], work: &mut [f32])
    requires offs_in_bounds { length offs.now * 4 ≤ length work.old }
    requires step_bound { (axis axes.now 0).step + (axis axes.now 1).step + (axis axes.now 2).step < 18446744073709551616 }
    requires by_index { (c : ℕ) → c < length offs.now
        → get_or offs.now c 0 + ((axis axes.now 0).step + (axis axes.now 1).step + (axis axes.now 2).step) + left ≤ length t.now }
    ensures { Cornered (tetra_of (first_three axes.now)) offs.now t.now left (length offs.now) work.old work.new }
{
    let p = tetra::first_three(axes);
    for (c, x) in offs.iter().enumerate() {
        lanes::put(work, c * 4, tetra::block(&t[*x..], p, axes, left));
    }
}
