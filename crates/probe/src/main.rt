// Document 01's probe: reads at most 16,384 bytes of standard input, however they arrive, and prints what a lookup on them gives.
#![tactic(auto)]

use std::io::{self, Read, Write};

fn main(rt: HostRuntime) -> io::Result<()> {
    // Stays: (a) a buffer and a count, as the probe uses no heap.
    let mut input = [0u8; 16384];
    let mut from = rt.reader();
    let mut count: usize = 0;
    for _ in 0..16384usize {
        let more = from.read(&mut input[count..])?;
        if more == 0 {
            break;
        }
        count += more;
    }
    let mut out = [0u8; 141];
    let length = probing::probed(&input[..count], &mut out);
    io::writer(&rt).write_all(&out[..length])
}
