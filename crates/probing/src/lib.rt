// The probe program's work, on bytes: document 01, "The probe program". The meaning is in specs/Probe.antt.
#![tactic(auto)]

mod text;
mod units;

ghost use Rattle.std.specs.Prelude.{◌≡◌, map, ◌≤◌, [], length, take, drop, IfOk, IfErr};
ghost use Rattle.outcome.specs.Refused.{number_of, number_in};
ghost use Rattle.layout.specs.Layout.{laid_in};
ghost use Rattle.lookup.specs.Table.{Looked};
ghost use Rattle.probing.specs.Text.{report};
ghost use Rattle.probing.specs.Probe.{code_of, Asked, probe_output, Probed};

use layout::MultidimensionalLut;
use outcome::Refusal;
use text::Report;

// A lookup whose inputs are the ink codes and whose table is the table bytes.
fn looked(
    lut: MultidimensionalLut,
    codes: &[u8],
    table: &[u8],
    answers: &mut [f32],
) -> Result<(), Refusal>
    requires codes_len_bound { length codes.now ≤ 15 }
    requires table_len_bound { length table.now ≤ 16384 }
    ensures { Looked lut (map code_of table.now) (map code_of codes.now) answers.old (number_in result) answers.new }
{
    let mut inputs = [0.0f32; 15];
    let mut entries = [0.0f32; 16384];
    lookup::lookup(
        lut,
        units::units(table, &mut entries),
        units::units(codes, &mut inputs),
        answers,
    )
}

// The bytes up to a place, and those from it on.
fn split(bytes: &[u8], place: usize) -> (&[u8], &[u8])
    ensures before { result.0.now ≡ take place bytes.now }
    ensures after { result.1.now ≡ drop place bytes.now }
    ensures few { (length result.0.now ≤ place) × (length result.1.now ≤ length bytes.now) }
{
    bytes.split_at(place.min(bytes.len()))
}

// The layout that the first three bytes ask for: a size for all inks, how many inks, and how many outputs.
fn asked(bytes: &[u8]) -> Result<MultidimensionalLut, Refusal>
    ensures { Asked bytes.now (laid_in result) }
{
    let g = lists::byte_at(bytes, 0);
    let n = lists::byte_at(bytes, 1) as usize;
    let m = lists::byte_at(bytes, 2) as usize;
    layout::layout([g; 16], n, m)
}

// The lookup that the input asks for: how many answers there are, in the first entries of `answers`.
fn answered(input: &[u8], answers: &mut [f32; 15]) -> Result<usize, Refusal>
    ensures ok { IfOk result (λ m. (m ≤ 15) × (report 0 (take m answers.new) ≡ probe_output input.now)) }
    ensures err { IfErr result (λ refusal. report (number_of refusal) [] ≡ probe_output input.now) }
{
    let (bytes, _) = split(input, 16384);
    let lut = asked(bytes)?;
    let (_, rest) = split(bytes, 3);
    let (codes, table) = split(rest, lut.input_inks);
    looked(lut, codes, table, answers)?;
    Ok(lut.output_inks)
}

// What the probe prints for the input.
fn reported(input: &[u8]) -> Report
    ensures { result ≡ probe_output input.now }
{
    let mut answers = [0.0f32; 15];
    match answered(input, &mut answers) {
        Ok(m) => Report::accepted(&answers[..m]),
        Err(refusal) => Report::refused(u32::from(refusal)),
    }
}

// Writes what the probe prints for the input to the start of `out`, and answers how many bytes that is.
// Stays: (a) a buffer and a length, as the clause `Probed` has them, since the library uses no heap.
pub fn probed(input: &[u8], out: &mut [u8; 141]) -> usize
    ensures { Probed input.now out.old result out.new }
{
    let report = reported(input);
    let text = report.as_slice();
    out[..text.len()].copy_from_slice(text);
    text.len()
}
