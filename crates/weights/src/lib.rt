// Weights for 8-bit codes: document 01. The rule is in specs/Rule.antt.
#![tactic(auto)]

mod entries;

ghost use Rattle.std.specs.Prelude.{◌≡◌, ◌-◌, true, false, nat_eq, IfOk, IfErr};
ghost use Rattle.weights.specs.Rule.{scale_of, cell_of, weight_cell, ranged_cell, ranged_cell_in, ranged, ranged_in};

use cell::Cell;
use outcome::Refusal;
use std::array;

// The f32 nearest to 1/255, by its bits.
const PER_CODE: u32 = 0x3b80_8081;

// What the weights of an axis follow from: its last line, and s.
#[derive(Clone, Copy)]
struct Axis {
    last: u8,
    s: f32,
}

impl Axis {
    // The axis of a grid of g lines.
    #[tactic(auto, unfolding(crate::specs::Rule::scale_of))]
    fn new(g: u8) -> Result<Axis, Refusal>
        ensures ok { IfOk result (λ axis. (nat_eq g 0 ≡ false) × (axis.last ≡ g - 1) × (axis.s ≡ scale_of (g - 1))) }
        ensures err { IfErr result (λ refusal. (nat_eq g 0 ≡ true) × (refusal ≡ Refusal.ZeroSize)) }
    {
        if g == 0 {
            return Err(Refusal::ZeroSize);
        }
        let last = g - 1;
        Ok(Axis {
            last,
            s: (last as f32) * f32::from_bits(PER_CODE),
        })
    }

    // The cell of a code.
    #[tactic(auto, unfolding(crate::specs::Rule::cell_of))]
    fn cell(self, index: u8) -> Cell
        ensures { result ≡ cell_of self.last self.s index }
    {
        let x = (index as u16) * (self.last as u16) / 255;
        let x_n = (self.last as u16).min(x + 1);
        Cell {
            x: x as usize,
            x_n: x_n as usize,
            w: (index as f32) * self.s - (x as f32),
        }
    }
}

// The weight of one code in a grid of g lines.
#[tactic(auto, unfolding(crate::specs::Rule::ranged_cell, crate::specs::Rule::weight_cell))]
pub fn ranged_256(g: u8, index: u8) -> Result<Cell, Refusal>
    ensures { ranged_cell_in result ≡ ranged_cell g index }
{
    let axis = Axis::new(g)?;
    Ok(axis.cell(index))
}

// The weights of all 256 codes in a grid of g lines.
#[tactic(auto, unfolding(crate::specs::Rule::ranged))]
pub fn create_ranged_256(g: u8) -> Result<[Cell; 256], Refusal>
    ensures { ranged_in result ≡ ranged g }
{
    let axis = Axis::new(g)?;
    Ok(array::from_fn(|index| axis.cell(index as u8)))
}

// The weight of one code in a grid of 33 lines, read from the constant table.
pub fn ranged_33(index: u8) -> Cell
    ensures { result ≡ weight_cell 33 index }
{
    let (lower, upper, bits) = entries::ENTRIES_33[index as usize];
    Cell {
        x: lower as usize,
        x_n: upper as usize,
        w: f32::from_bits(bits),
    }
}
