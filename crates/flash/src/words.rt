// Words of four bytes, the first counting most.
ghost use Rattle.std.specs.Prelude.{◌≡◌, ◌+◌, ◌*◌, ◌≤◌, length};
ghost use Rattle.lists.specs.Buffer.{written_from};
ghost use Rattle.flash.specs.File.{word_at, byte_of, check_of};

// The word at a place.
// Stays: (d) words and blocks are at places of a file here, as document 02 has them; their bounds are one clause each.
pub(crate) fn word(file: &[u8], at: usize) -> u32
    requires { at + 4 ≤ length file.now }
    ensures { result ≡ word_at file.now at }
{
    u32::from_be_bytes([file[at], file[at + 1], file[at + 2], file[at + 3]])
}

// Writes a word at a place.
pub(crate) fn put(file: &mut [u8], at: usize, w: u32)
    requires { at + 4 ≤ length file.old }
    ensures { file.new ≡ written_from at (byte_of w) 4 file.old }
{
    let bytes = w.to_be_bytes();
    file[at..at + 4].copy_from_slice(&bytes);
}

// The check of the block at a place: the wrapping sum of its first 127 words.
pub(crate) fn sum(file: &[u8], at: usize) -> u32
    requires { at + 512 ≤ length file.now }
    ensures { result ≡ check_of (λ j. word_at file.now (at + 4 * j)) }
{
    let mut sum: u32 = 0;
    for j in 0..127 {
        sum = sum.wrapping_add(word(file, at + 4 * j));
    }
    sum
}
