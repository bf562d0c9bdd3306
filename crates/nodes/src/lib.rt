// The node reader: a node's entries in the table, by its coordinates.
#![tactic(auto)]

mod check;
mod coordinates;

ghost use Rattle.std.specs.Prelude.{◌+◌, ◌≤◌, length, IfOk};
ghost use Rattle.outcome.specs.Refused.{number_in};
ghost use Rattle.nodes.specs.Node.{NodeRefused, NodePlaced, NodeShown, offset_in, entries_in};

use layout::{EntryOffset, MultidimensionalLut};
use outcome::Refusal;

// What a call of `node` on the same arguments refuses: the first that applies.
pub fn check_node(
    lut: MultidimensionalLut,
    table: &[f32],
    coordinates: &[usize],
) -> Result<(), Refusal>
    ensures { NodeRefused lut table.now coordinates.now (number_in result) }
{
    check::lengths(lut, table.len(), coordinates.len())?;
    if !coordinates::below(coordinates, &lut.grid_sizes) {
        return Err(Refusal::OutsideGrid);
    }
    Ok(())
}

// The place of the node's first entry in the table.
pub fn node_offset(
    lut: MultidimensionalLut,
    table: &[f32],
    coordinates: &[usize],
) -> Result<EntryOffset, Refusal>
    ensures refused { NodeRefused lut table.now coordinates.now (number_in result) }
    ensures placed { NodePlaced lut table.now coordinates.now (offset_in result) }
    ensures within { IfOk result (λ first. first.0 + lut.output_inks ≤ length table.now) }
{
    check_node(lut, table, coordinates)?;
    Ok(coordinates::first_entry(&lut, coordinates))
}

// The node's m entries, as the part of the table that holds them.
#[tactic(auto, using(crate::proofs::Shown::none_shown))]
pub fn node<'a>(
    lut: MultidimensionalLut,
    table: &'a [f32],
    coordinates: &[usize],
) -> Result<&'a [f32], Refusal>
    ensures refused { NodeRefused lut table.now coordinates.now (number_in result) }
    ensures shown { NodeShown lut table.now coordinates.now (entries_in result) }
{
    let EntryOffset(first) = node_offset(lut, table, coordinates)?;
    let first = first as usize;
    Ok(&table[first..first + lut.output_inks])
}
