// Lists by a rule, tests over a list, bytes as a number, and what a call leaves in a lent buffer: definitions and laws.
#![tactic(auto)]

ghost use Rattle.std.specs.Prelude.{◌≡◌, get_or};
ghost use Rattle.lists.specs.Bytes.{first_sixteen};

use std::array;

// The byte at a place, 0 where it is missing.
pub fn byte_at(bytes: &[u8], place: usize) -> u8
    ensures { result ≡ get_or bytes.now place 0 }
{
    bytes.get(place).copied().unwrap_or(0)
}

// The first sixteen bytes, 0 where one is missing.
pub fn first_16(bytes: &[u8]) -> [u8; 16]
    ensures { result ≡ first_sixteen bytes.now }
{
    array::from_fn(|i| byte_at(bytes, i))
}
