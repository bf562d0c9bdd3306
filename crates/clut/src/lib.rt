// CLUT elements out of ICC profiles, document 02, E2, and their data alone. The meaning is in specs/Clut.antt and specs/Units.antt.
#![tactic(auto)]

mod values;

ghost use Rattle.std.specs.Prelude.{◌≡◌, ◌*◌, ◌≤◌, IfOk};
ghost use Rattle.outcome.specs.Refused.{number_in};
ghost use Rattle.layout.specs.Layout.{laid_in};
ghost use Rattle.clut.specs.Units.{data_refusal, UnitsRead};
ghost use Rattle.clut.specs.Widths.{bytes_of};
ghost use Rattle.clut.specs.Clut.{ClutRead};

use layout::MultidimensionalLut;
use outcome::Refusal;
use values::Width;

// Sixteen sizes, the precision and three bytes of padding come before the data.
const HEADER: usize = 20;

// Checks 14, 15 and 8. Answers the width of a value.
#[tactic(auto, unfolding(crate::specs::Units::data_refusal))]
fn check(precision: usize, bytes: usize, count: usize, room: usize) -> Result<Width, Refusal>
    ensures number { number_in result ≡ data_refusal precision bytes count room }
    ensures width { IfOk result (λ width. bytes_of width ≡ precision) }
    ensures held { IfOk result (λ width. bytes_of width * count ≤ bytes) }
    ensures room { IfOk result (λ width. count ≤ room) }
{
    let width = Width::try_from(precision)?;
    if width.held(bytes) < count {
        return Err(Refusal::ShortData);
    }
    if room < count {
        return Err(Refusal::ShortAnswer);
    }
    Ok(width)
}

// Stays: (a) a precision is a number here, since refusal 14, of the clause `UnitsRead`, is for one that is no width.
// The first `count` values of the bytes, of `precision` bytes each, as numbers from 0 to 1: checks 14, 15, 8, and sets the first `count` places
// of `entries`. Refused, nothing is written.
pub fn read_units(
    bytes: &[u8],
    precision: usize,
    count: usize,
    entries: &mut [f32],
) -> Result<(), Refusal>
    ensures { UnitsRead bytes.now precision count entries.old (number_in result) entries.new }
{
    let width = check(precision, bytes.len(), count, entries.len())?;
    width.read(bytes, entries, count);
    Ok(())
}

// Reads an element for n inks in and m out: checks 13, 1, 2, 3, 5, 14, 15, 8. Answers the layout, and sets the first total places of
// `entries`. Refused, nothing is written.
pub fn read_clut(
    element: &[u8],
    n: usize,
    m: usize,
    entries: &mut [f32],
) -> Result<MultidimensionalLut, Refusal>
    ensures { ClutRead element.now n m entries.old (laid_in result) entries.new }
{
    if element.len() < HEADER {
        return Err(Refusal::ShortElement);
    }
    let lut = layout::layout(lists::first_16(element), n, m)?;
    let total = layout::entry_count(lut) as usize;
    let precision = element[16] as usize;
    read_units(&element[HEADER..], precision, total, entries)?;
    Ok(lut)
}
