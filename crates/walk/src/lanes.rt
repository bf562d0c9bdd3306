// Four neighbouring outputs at a time.
ghost use Rattle.std.specs.Prelude.{◌≡◌, ℕ, true, ◌+◌, ◌≤◌, ◌<◌, length, get_or};
ghost use Rattle.std.specs.Float.{nan};
ghost use Rattle.lists.specs.Buffer.{written_from};
ghost use Rattle.walk.specs.Blocks.{lane, at, Lanes, Given};

use crate::Four;

// The four entries from i on. The part with constant indices lets LLVM see one load of four.
pub(crate) fn load(s: &[f32], i: usize) -> Four
    requires { i + 4 ≤ length s.now }
    ensures { Lanes (λ k. at s.now (i + k)) result }
{
    let t = &s[i..];
    Four {
        a: t[0],
        b: t[1],
        c: t[2],
        d: t[3],
    }
}

// The four entries from i on become f.
pub(crate) fn put(s: &mut [f32], i: usize, f: Four)
    requires { i + 4 ≤ length s.old }
    ensures { s.new ≡ written_from i (lane f) 4 s.old }
{
    s[i] = f.a;
    s[i + 1] = f.b;
    s[i + 2] = f.c;
    s[i + 3] = f.d;
}

impl Four {
    // Lane by lane.
    pub(crate) fn with<F: Fn(f32, f32) -> f32>(self, other: Four, f: F) -> Four
        requires { F.IsAlwaysCallable f }
        ensures { (k : ℕ) → k < 4 → F.post f (lane self k) (lane other k) (lane result k) }
    {
        Four {
            a: f(self.a, other.a),
            b: f(self.b, other.b),
            c: f(self.c, other.c),
            d: f(self.d, other.d),
        }
    }
}

// The answers from o on: four where out has room for four, else as many as are left. (Three at once, since three
// outputs are the most usual count.)
pub(crate) fn give(f: Four, o: usize, out: &mut [f32])
    requires { o ≤ length out.old }
    ensures { Given (lane f) o out.old out.new }
{
    if out.len() - o >= 4 {
        put(out, o, f);
        return;
    }
    if out.len() - o == 3 {
        out[o] = f.a;
        out[o + 1] = f.b;
        out[o + 2] = f.c;
        return;
    }
    let lanes = [f.a, f.b, f.c, f.d];
    for i in 0..out.len() - o {
        out[o + i] = lanes[i];
    }
}

// Whether one block holds all m outputs, where the farthest node has `left` entries up to the table's end.
pub(crate) fn one_block(m: usize, left: usize) -> bool
    ensures { result ≡ true → (m ≤ 4) × (4 ≤ left) }
{
    if m > 4 {
        return false;
    }
    left >= 4
}
