// The four arrays of a record, compared with those of a layout. A NaN and the other zero are no place's value.
ghost use Rattle.std.specs.Prelude.{◌≡◌, true, ℕ, ◌≤◌, ◌<◌, take};
ghost use Rattle.std.specs.Float.{nan};
ghost use Rattle.outcome.specs.Outcome.{Decides};
ghost use Rattle.layout.specs.Layout.{limit, total};
ghost use Rattle.layout.specs.Places.{used_sizes, UsedAt, UnusedAt};

use crate::MultidimensionalLut;
use crate::sizes::LIMIT;

// Bit for bit, where no NaN is equal to anything.
fn same_bits(a: f32, b: f32) -> bool
    ensures { (result ≡ true → a ≡ b) × (a ≡ b → (b ≡ nan → ⊥) → result ≡ true) }
{
    if a.is_nan() || b.is_nan() {
        return false;
    }
    f32::to_bits(a) == f32::to_bits(b)
}

// Whether the places of the record's inks hold what their sizes and m give, no size is 0, and the total is within the limit.
// Each stride is that of the next ink times the next ink's size, from the last ink down.
pub(crate) fn used(lut: &MultidimensionalLut) -> bool
    requires { (lut.now.input_inks ≤ 16) × (lut.now.output_inks ≤ 15) }
    ensures { Decides result (((i : ℕ) → i < lut.now.input_inks → UsedAt lut.now i) × (total (used_sizes lut.now) lut.now.output_inks ≤ limit)) }
{
    let outputs = lut.output_inks as u64;
    let mut stride: u64 = 1;
    for i in (0..lut.input_inks).rev() {
        let size = lut.grid_sizes[i];
        if size == 0 {
            return false;
        }
        let stored = lut.grid_strides[i] as u64;
        if stored != stride {
            return false;
        }
        if lut.grid_filling_size[i] as u64 != outputs * stored {
            return false;
        }
        if !same_bits(lut.grid_scale[i], (size - 1) as f32) {
            return false;
        }
        stride = stored * (size as u64);
    }
    stride * outputs <= LIMIT
}

// Whether the places after those of the record's inks hold 1, 1, +0.0 and the size 0.
pub(crate) fn unused(lut: &MultidimensionalLut) -> bool
    requires { lut.now.input_inks ≤ 16 }
    ensures { Decides result ((i : ℕ) → i < 16 → lut.now.input_inks ≤ i → UnusedAt lut.now i) }
{
    for i in lut.input_inks..16 {
        if lut.grid_strides[i] != 1 {
            return false;
        }
        if lut.grid_filling_size[i] != 1 {
            return false;
        }
        if !same_bits(lut.grid_scale[i], 0.0) {
            return false;
        }
        if lut.grid_sizes[i] != 0 {
            return false;
        }
    }
    true
}
