// The total of the first sizes.
ghost use Rattle.std.specs.Prelude.{◌≡◌, ◌+◌, ◌*◌, ◌≤◌, min};
ghost use Rattle.lists.specs.Lists.{product};
ghost use Rattle.layout.specs.Layout.{limit};

// The largest total that is accepted.
pub(crate) const LIMIT: u64 = 4294967295;

// m times the sizes, or LIMIT + 1 where that is above LIMIT: no product on the way overflows. It is 0 where a size is.
pub(crate) fn capped(sizes: &[u8], m: u64) -> u64
    requires { m ≤ limit }
    ensures { result ≡ min (product sizes.now * m) (limit + 1) }
{
    let mut t = m;
    for size in sizes {
        t = (t * (*size as u64)).min(LIMIT + 1);
    }
    t
}
