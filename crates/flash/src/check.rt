// What is refused of a file.
ghost use Rattle.std.specs.Prelude.{◌≡◌, ◌+◌, ◌*◌, ◌≤◌, min, length};
ghost use Rattle.outcome.specs.Refused.{number_in};
ghost use Rattle.layout.specs.Layout.{limit};
ghost use Rattle.flash.specs.File.{blocks_for};
ghost use Rattle.flash.specs.Refusals.{zeros, block_refusal, head_used, body_used, body_refusal, rest_refusal};

use crate::words;
use outcome::Refusal;

// Whether `count` bytes from a place on are all 0.
// Stays: (b) by a fold: with `all`, which exits early, the compiler does not take many at once.
fn all_zero(file: &[u8], from: usize, count: usize) -> bool
    requires { from + count ≤ length file.now }
    ensures { result ≡ zeros file.now from count }
{
    file[from..from + count].iter().fold(0, |any, b| any | *b) == 0
}

// The block at a place: its check, its number, its filling from byte `used` on.
pub(crate) fn check_block(file: &[u8], at: usize, number: u32, used: usize) -> Result<(), Refusal>
    requires { (at + 512 ≤ length file.now) × (used ≤ 508) }
    ensures { number_in result ≡ block_refusal file.now at number used }
{
    if words::sum(file, at) != words::word(file, at + 508) {
        return Err(Refusal::BlockCheck);
    }
    if words::word(file, at) != number {
        return Err(Refusal::BlockNumber);
    }
    if !all_zero(file, at + used, 508 - used) {
        return Err(Refusal::BlockFilling);
    }
    Ok(())
}

// Where the filling of block 0 begins: after the sizes of its n inks.
#[tactic(auto, unfolding(crate::specs::Refusals::head_used))]
pub(crate) fn head_used(n: usize) -> usize
    ensures { (result ≡ head_used n) × (result ≤ 22) }
{
    6 + n.min(16)
}

// How many blocks hold that many entries.
#[tactic(auto, unfolding(crate::specs::File::blocks_for))]
pub(crate) fn blocks_for(total: usize) -> usize
    ensures value { result ≡ blocks_for total }
    ensures few { 126 * result ≤ total + 125 }
{
    total.div_ceil(126)
}

// Where the filling of a later block begins, where `rest` entries are left at its start.
#[tactic(auto, unfolding(crate::specs::Refusals::body_used))]
fn body_used(rest: usize) -> usize
    ensures { (result ≡ body_used rest) × (result ≤ 508) }
{
    4 + 4 * rest.min(126)
}

// The blocks after block 0 in turn.
fn check_body(file: &[u8], total: usize, count: usize) -> Result<(), Refusal>
    requires { (512 * (1 + count) ≤ length file.now) × (126 * count ≤ total + 125) × (total ≤ limit) }
    ensures { number_in result ≡ body_refusal file.now total count }
{
    for k in 0..count {
        let used = body_used(total - 126 * k);
        check_block(file, 512 * (k + 1), (k + 1) as u32, used)?;
    }
    Ok(())
}

// The whole length, the blocks after block 0, and the places of the entry buffer.
pub(crate) fn check_rest(file: &[u8], total: usize, room: usize) -> Result<(), Refusal>
    requires { total ≤ limit }
    ensures { number_in result ≡ rest_refusal file.now total room }
{
    let count = blocks_for(total);
    if file.len() != 512 * (1 + count) {
        return Err(Refusal::FileLength);
    }
    check_body(file, total, count)?;
    if room < total {
        return Err(Refusal::ShortAnswer);
    }
    Ok(())
}
