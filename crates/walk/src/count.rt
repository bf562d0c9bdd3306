// How many nodes a lookup reads.
ghost use Rattle.std.specs.Prelude.{◌≡◌, ◌-◌, ◌*◌, ◌^◌, ◌≤◌};

// The reads of three inks and more, none of them skipped: 6 for each tetrahedron, and each ink from the fourth on doubles those.
pub(crate) fn reads_of(inks: usize) -> u32
    requires { (3 ≤ inks) × (inks ≤ 15) }
    ensures { result ≡ 6 * 2 ^ (inks - 3) }
{
    6u32 << (inks - 3)
}
