// The numbers of all arrays of a bundle, one after another.
ghost use Rattle.std.specs.Prelude.{◌≡◌, ◌*◌, length};
ghost use Rattle.refusals.specs.Outcomes.{Passes};
ghost use Rattle.heads.specs.Heads.{head_of};
ghost use Rattle.bundles.specs.Bundles.{numbers_of, count_of, entries_of};
ghost use Rattle.bundles.specs.Calls.{count_checks};

use bundle_heads::{coefficient_count, entry_count};
use bundle_steps::{array_at, next_at};
use bundles::FIRST_ENTRY;
use stored_numbers::read_numbers;

pub(crate) fn read_arrays(file: &[u8], numbers: &mut [i32])
    requires { Passes (count_checks file.now) × (length numbers.old ≡ 2 * (head_of file.now).N * count_of file.now) }
    ensures { numbers.new ≡ numbers_of (entries_of file.now) }
{
    let width = 2 * (coefficient_count(file) as usize);
    let mut at = FIRST_ENTRY;
    for k in 0..entry_count(file) as usize {
        let from = width * k;
        read_numbers(array_at(file, at), &mut numbers[from..from + width]);
        at = next_at(file, at);
    }
}
