// Bundles, one file for a round: what a bundle is, what reading, walking and writing one give, both round trips, and its lengths.
// It works on no bytes: reading, walking and writing are crates of their own.

#![tactic(auto)]

ghost use Rattle.std.specs.Prelude.{◌≡◌};
ghost use Rattle.bundles.specs.Bundles.{entry_length};
ghost use Rattle.bundles.specs.Calls.{right_length};

pub const STOP_BYTES: usize = 2;

// "at most 65,536 bytes"
pub const LONGEST_BUNDLE: usize = 65536;

// Where the first entry stands: behind the head and the count.
pub const FIRST_ENTRY: usize = 18;

// The bytes of an entry.
pub fn entry_length(n: u32) -> usize
    ensures { result ≡ entry_length n }
{
    STOP_BYTES + 4 * (n as usize)
}

// Whether a bundle of so many entries has this length. More entries than bytes fit into none.
pub fn right_length(n: u32, count: usize, file: usize) -> bool
    ensures { result ≡ right_length n count file }
{
    file <= LONGEST_BUNDLE
        && count <= LONGEST_BUNDLE
        && file == FIRST_ENTRY + entry_length(n) * count
}
