// The blocks of a file, written and copied out.
ghost use Rattle.std.specs.Prelude.{◌≡◌, ◌+◌, ◌*◌, ◌≤◌, ◌∷◌, length, slice_index};
ghost use Rattle.lists.specs.Lists.{tabulate};
ghost use Rattle.lists.specs.Buffer.{written, written_from};
ghost use Rattle.layout.specs.Layout.{limit};
ghost use Rattle.flash.specs.File.{word_at, block_byte, file_byte, file_length};
ghost use Rattle.flash.specs.Read.{entry_in};

use crate::{check, words};

// Writes a block at a place: its number, its words, zeros, and the check.
fn put_block(words: &[u32], number: u32, file: &mut [u8], at: usize)
    requires { (length words.now ≤ 126) × (at + 512 ≤ length file.old) }
    ensures { file.new
        ≡ written_from at (block_byte number (λ j. slice_index words.now j)) 512 file.old }
{
    words::put(file, at, number);
    let mut sum = number;
    for (j, &w) in words.iter().enumerate() {
        words::put(file, at + 4 + 4 * j, w);
        sum = sum.wrapping_add(w);
    }
    file[at + 4 + 4 * words.len()..at + 508].fill(0);
    words::put(file, at + 508, sum);
}

// What block 0 holds after its number: n, m and the sizes.
#[derive(Clone, Copy)]
pub(crate) struct Head {
    pub(crate) n: u8,
    pub(crate) m: u8,
    pub(crate) sizes: [u8; 16],
}

impl Head {
    // Its words, the last filled up with zeros.
    fn words(&self) -> [u32; 5]
        ensures { result ≡ tabulate 5 (λ j. word_at (self.now.n ∷ self.now.m ∷ self.now.sizes) (4 * j)) }
    {
        let sizes = &self.sizes;
        [
            u32::from_be_bytes([self.n, self.m, sizes[0], sizes[1]]),
            u32::from_be_bytes([sizes[2], sizes[3], sizes[4], sizes[5]]),
            u32::from_be_bytes([sizes[6], sizes[7], sizes[8], sizes[9]]),
            u32::from_be_bytes([sizes[10], sizes[11], sizes[12], sizes[13]]),
            u32::from_be_bytes([sizes[14], sizes[15], 0, 0]),
        ]
    }
}

// Writes the file of all the entries.
pub(crate) fn put_all(head: &Head, bits: &[u32], file: &mut [u8])
    requires { (length bits.now ≤ limit) × (file_length (length bits.now) ≤ length file.old) }
    ensures { file.new
        ≡ written (file_byte (head.now.n ∷ head.now.m ∷ head.now.sizes) bits.now) (file_length (length bits.now)) file.old }
{
    put_block(&head.words(), 0, file, 0);
    for (k, part) in bits.chunks(126).enumerate() {
        put_block(part, (k + 1) as u32, file, 512 * (k + 1));
    }
}

// Copies the entries of one block out.
fn copy_block(file: &[u8], at: usize, bits: &mut [u32])
    requires { at + 4 * length bits.old ≤ length file.now }
    ensures { bits.new
        ≡ written (λ e. word_at file.now (at + 4 * e)) (length bits.old) bits.old }
{
    for (e, bit) in bits.iter_mut().enumerate() {
        *bit = words::word(file, at + 4 * e);
    }
}

// Copies all the entries out.
pub(crate) fn copy_all(file: &[u8], bits: &mut [u32], total: usize)
    requires { (total ≤ limit) × (file_length total ≤ length file.now) × (total ≤ length bits.old) }
    ensures { bits.new ≡ written (entry_in file.now) total bits.old }
{
    for k in 0..check::blocks_for(total) {
        let end = (126 * k + 126).min(total);
        copy_block(file, 512 * (k + 1) + 4, &mut bits[126 * k..end]);
    }
}
