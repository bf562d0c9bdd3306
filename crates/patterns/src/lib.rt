// Floats and their bit patterns, where a NaN has no payload, and the hex digits of a pattern.
#![tactic(auto)]

ghost use Rattle.std.specs.Prelude.{◌≡◌, ◌-◌, ◌/◌, ◌%◌, ◌^◌, ◌<◌};
ghost use Rattle.std.specs.Float.{binary32};
ghost use Rattle.std.specs.Float.Ieee.{of_bits, to_bits};
ghost use Rattle.patterns.specs.Hex.{glyph_of, hex_of};

use std::num::{f32_from_bits_with_nan, f32_to_bits_with_nan};

const DIGITS: [u8; 16] = *b"0123456789ABCDEF";

// The bits of x. A NaN of any payload has the bits 7FC00000 here.
pub fn bits(x: f32) -> u32
    ensures { result ≡ to_bits binary32 x }
{
    f32_to_bits_with_nan(x)
}

// The float with these bits. The bits of every NaN give a NaN.
pub fn float(bits: u32) -> f32
    ensures { result ≡ of_bits binary32 bits }
{
    f32_from_bits_with_nan(bits)
}

// The digit at a place of a word, where place 0 is the most significant.
// Stays: (a) std writes digits to a writer alone, and promises nothing of them; the library uses no heap.
fn digit(word: u32, place: usize) -> u8
    requires { place < 8 }
    ensures { result ≡ glyph_of (word / 16 ^ (7 - place) % 16) }
{
    DIGITS[(word >> (28 - 4 * place)) as usize % 16]
}

// The eight digits of a word.
pub fn hex(word: u32) -> [u8; 8]
    ensures { result ≡ hex_of word }
{
    let mut digits = [0u8; 8];
    for (place, one) in digits.iter_mut().enumerate() {
        *one = digit(word, place);
    }
    digits
}
