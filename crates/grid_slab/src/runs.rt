// Copying runs of consecutive entries.
ghost use Rattle.std.specs.Prelude.{◌≡◌, ◌*◌, length};
ghost use Rattle.lists.specs.Buffer.{written};
ghost use Rattle.grid_slab.specs.Runs.{CanCut, Fit, runs_of, cut_entry};

use layout::MultidimensionalLut;

// Ink j turns `turns` times through its lines, with a run of so many entries for each; line `k` is the one that is cut out.
#[derive(Clone, Copy)]
pub(crate) struct Runs {
    pub run: usize,
    pub lines: usize,
    pub k: usize,
    pub turns: usize,
}

impl Runs {
    // The runs of ink j, of which that at line k is cut out.
    pub(crate) fn of(lut: MultidimensionalLut, j: usize, k: usize) -> Runs
        requires { CanCut lut j }
        ensures { result ≡ runs_of lut j k }
    {
        let filling = lut.grid_filling_size;
        let run = filling[j - 1] as usize;
        let sizes = lut.grid_sizes;
        let lines = sizes[j - 1] as usize;
        let turns = (layout::entry_count(lut) as usize) / (run * lines);
        Runs {
            run,
            lines,
            k,
            turns,
        }
    }

    // The run at line k of each turn, one after the other.
    fn copy(self, table: &[f32], slab: &mut [f32])
        requires { Fit (length table.now) (length slab.old) self }
        ensures { slab.new ≡ written (cut_entry table.now self) (self.turns * self.run) slab.old }
    {
        for t in 0..self.turns {
            let from = (t * self.lines + self.k) * self.run;
            let to = t * self.run;
            // Stays: (b) by copy_from_slice, which calls memmove, a cut of runs of 17 entries takes 1.4 times as long.
            for i in 0..self.run {
                slab[to + i] = table[from + i];
            }
        }
    }

    // The same for any run. Where the last ink is cut a run is one node: with up to four outputs its length is a constant at the call, so that
    // the compiler makes a loop for it.
    // Stays: (b) by one copy for every run, runs of one entry take five times as long, of two twice.
    pub(crate) fn cut(self, table: &[f32], slab: &mut [f32])
        requires { Fit (length table.now) (length slab.old) self }
        ensures { slab.new ≡ written (cut_entry table.now self) (self.turns * self.run) slab.old }
    {
        match self.run {
            1 => Runs { run: 1, ..self }.copy(table, slab),
            2 => Runs { run: 2, ..self }.copy(table, slab),
            3 => Runs { run: 3, ..self }.copy(table, slab),
            4 => Runs { run: 4, ..self }.copy(table, slab),
            _ => self.copy(table, slab),
        }
    }
}
