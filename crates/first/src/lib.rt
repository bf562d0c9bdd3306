// The first engine for C, for the tests alone: they ask it every lookup that they ask the library.
#![tactic(auto)]

ghost use Rattle.lookup.specs.Table.{LookedBySizes};

// Lays out, then looks up by the first engine: refusals 1, 2, 3, 5, then 6, 7, 8, 16. On 0 the first m entries of `answer` are set.
#[unsafe(no_mangle)]
pub extern "C" fn first_lookup(
    sizes: &[u8; 16],
    n: usize,
    m: usize,
    table: &[f32],
    inputs: &[f32],
    answer: &mut [f32],
) -> u32
    ensures { LookedBySizes sizes.now n m table.now inputs.now answer.old result answer.new }
{
    outcome::number(lookup::lookup_by_sizes(sizes, n, m, table, inputs, answer))
}
