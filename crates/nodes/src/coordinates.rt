// A node's coordinates, its number and its first entry.
ghost use Rattle.std.specs.Prelude.{◌≡◌, ◌*◌, ◌<◌, ◌≤◌, ◌↔◌, length, reverse, slice_index, EachIndex, IsTrue};
ghost use Rattle.layout.specs.Order.{index};
ghost use Rattle.layout.specs.Layout.{ink_sizes};
ghost use Rattle.nodes.specs.Checks.{IsNode};

use layout::{EntryOffset, MultidimensionalLut, NodeNumber};

// Whether each coordinate is below the size of its ink.
pub(crate) fn below(coordinates: &[usize], sizes: &[u8; 16]) -> bool
    requires { length coordinates.now ≤ 16 }
    ensures { IsTrue result ↔ EachIndex coordinates.now (λ i. slice_index coordinates.now i < slice_index sizes.now i) }
{
    coordinates
        .iter()
        .zip(sizes.iter())
        .all(|(k, size)| *k < *size as usize)
}

// The number of the node at the coordinates, first ink first: each times the stride of its ink.
fn number(lut: &MultidimensionalLut, coordinates: &[usize]) -> NodeNumber
    requires { IsNode lut.now coordinates.now }
    ensures { result.0 ≡ index (ink_sizes lut.now) (reverse coordinates.now) }
{
    let mut sum: u64 = 0;
    for (i, k) in coordinates.iter().enumerate() {
        sum += (*k as u64) * (lut.grid_strides[i] as u64);
    }
    NodeNumber(sum as u32)
}

// The place of its first entry.
pub(crate) fn first_entry(lut: &MultidimensionalLut, coordinates: &[usize]) -> EntryOffset
    requires { IsNode lut.now coordinates.now }
    ensures { result.0 ≡ index (ink_sizes lut.now) (reverse coordinates.now) * lut.now.output_inks }
{
    layout::entry_offset(number(lut, coordinates), lut.output_inks as u32)
}
