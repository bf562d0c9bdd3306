// Reads a list of calls, makes each with the proved crates and prints what came back. tests/vectors says how the list is written.
#![tactic(auto)]

mod blends;
mod calls;
mod cells;
mod files;
mod floats;
mod kinds;
mod print;
mod record;
mod words;

use kinds::Kind;
use print::Lines;
use std::io::{self, BufWriter, Read, Write};
use words::Words;

// Room for what a case reads. It is made before the first case, so that no case can be out of memory.
#[derive(Drop)]
struct Room {
    table: [f32; 40000],
    inputs: [f32; 4096],
    left: [f32; 4096],
    walked: [f32; 4096],
    coordinates: [usize; 128],
    bits: [u32; 1024],
    bytes: [u8; 4096],
}

// What is left of the list, room for its cases, and what is printed. A case reads its words and prints its line.
#[derive(Drop)]
struct Replay<'a, W: Write> {
    list: Words<'a>,
    room: Room,
    out: Lines<W>,
}

impl<W: Write> Replay<'_, W> {
    fn case(&mut self, kind: Kind) -> io::Result<()> {
        match kind {
            Kind::Lookup => self.lookup(),
            Kind::Layout => self.layout(),
            Kind::Node => self.node(),
            Kind::Weight => self.weight(),
            Kind::Weights => self.weights(),
            Kind::Blend(method) => self.blend(method),
            Kind::Constant => self.constant(),
            Kind::Clut => self.clut(),
            Kind::Slab => self.slab(),
            Kind::Units => self.units(),
            Kind::Skipping => self.skipping(),
            Kind::Write => self.write(),
            Kind::Read => self.read(),
        }?;
        self.out.end()
    }
}

// The cases up to a kind that is none, as 0.
fn main(rt: HostRuntime) -> io::Result<()> {
    let mut input = Vec::new(rt.alloc());
    rt.reader().read_to_end(&mut input)?;
    let mut replay = Replay {
        list: Words { rest: &input },
        room: Room {
            table: [0.0; 40000],
            inputs: [0.0; 4096],
            left: [0.0; 4096],
            walked: [0.0; 4096],
            coordinates: [0; 128],
            bits: [0; 1024],
            bytes: [0; 4096],
        },
        out: Lines {
            out: BufWriter::new(rt.alloc(), io::writer(&rt))?,
        },
    };
    for _ in 0..65536usize {
        let Some(kind) = Kind::of(replay.list.number()) else {
            break;
        };
        replay.case(kind)?;
    }
    replay.out.out.flush()
}
