// Tables of the list: their entries are listed, or made from a seed that counts up.
ghost use Rattle.std.specs.Prelude.{◌≤◌, length};

use crate::words::Words;
use std::num::nearest_u32_to_f32;

// How entries are given. Made ones are shares of 1, or any bits; the seed is that of the next.
#[derive(Drop)]
enum Source {
    Listed,
    Shares(u32),
    Patterns(u32),
}

// The hash of a seed, which then counts up.
fn hashed(seed: &mut u32) -> u32 {
    let s = *seed;
    *seed = s.wrapping_add(1);
    let a = (s ^ (s >> 16)).wrapping_mul(0x7feb352d);
    let b = (a ^ (a >> 15)).wrapping_mul(0x846ca68b);
    b ^ (b >> 16)
}

impl Source {
    // A mode, and where entries are made the first seed.
    fn read(list: &mut Words<'_>) -> Source {
        match list.number() {
            0 => Source::Listed,
            1 => Source::Shares(list.word()),
            _ => Source::Patterns(list.word()),
        }
    }

    // The next entry.
    fn float(&mut self, list: &mut Words<'_>) -> f32 {
        match self {
            Source::Listed => list.float(),
            Source::Shares(seed) => nearest_u32_to_f32(hashed(seed) >> 8) / 16777216.0,
            Source::Patterns(seed) => patterns::float(hashed(seed)),
        }
    }

    // The next entry of a file's table, as its bits.
    fn bits(&mut self, list: &mut Words<'_>) -> u32 {
        match self {
            Source::Listed => list.word(),
            Source::Shares(seed) | Source::Patterns(seed) => hashed(seed),
        }
    }
}

impl Words<'_> {
    // A count, and a table of as many entries.
    pub(crate) fn table<'r>(&mut self, room: &'r mut [f32]) -> &'r mut [f32]
        ensures { length result.now ≤ length room.old }
    {
        let table = self.part(room);
        let mut source = Source::read(self);
        self.fill(table, |list| source.float(list));
        table
    }

    // A count, and a file's table of as many entries, as their bits, so that a NaN keeps its payload.
    pub(crate) fn table_bits<'r>(&mut self, room: &'r mut [u32]) -> &'r mut [u32]
        ensures { length result.now ≤ length room.old }
    {
        let table = self.part(room);
        let mut source = Source::read(self);
        self.fill(table, |list| source.bits(list));
        table
    }
}

// Whether two parts have the same bits, NaN without its payload.
pub(crate) fn same(one: &[f32], other: &[f32]) -> bool {
    one.len() == other.len()
        && one
            .iter()
            .zip(other)
            .all(|(a, b)| patterns::bits(*a) == patterns::bits(*b))
}
