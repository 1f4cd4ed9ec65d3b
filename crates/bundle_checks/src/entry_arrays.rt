// The arrays of a bundle are judged entry by entry, in stored order.
ghost use Rattle.std.specs.Prelude.{◌≡◌, ◌*◌, length};
ghost use Rattle.refusals.specs.Outcomes.{outcome, Passes};
ghost use Rattle.refusals.specs.Numbers.{answered};
ghost use Rattle.parameters.specs.Sets.{set_of};
ghost use Rattle.array_sets.specs.Sets.{array_check};
ghost use Rattle.array_sets.specs.declared.ArraySet.TheVariants.{ReducedModuloQ};
ghost use Rattle.heads.specs.Heads.{head_of};
ghost use Rattle.files.specs.Files.{numbers_from};
ghost use Rattle.bundles.specs.Bundles.{entries_of};
ghost use Rattle.bundles.specs.Calls.{count_checks, arrays_checks};
ghost use Rattle.bundles.specs.Steps.{part_at};

use array_sets::{ArraySet, check_array};
use bundle_heads::entry_count;
use bundle_steps::{array_at, next_at};
use bundles::FIRST_ENTRY;
use parameters::Parameters;
use refusals::Refusal;
use stored_numbers::read_numbers;

// Judges the entry at this place. Its numbers go to a lent array.
fn array_refusal(p: Parameters, file: &[u8], at: usize, x: &mut [i32]) -> Result<(), Refusal>
    requires { length (part_at file.now at) ≡ 2 * length x.old }
    ensures { answered result ≡ array_check (set_of p) ReducedModuloQ (numbers_from (part_at file.now at)) }
{
    read_numbers(array_at(file, at), x);
    check_array(p, ArraySet::ReducedModuloQ, x)
}

// Judges all entries, each in the same lent array.
fn arrays_refusal_in(p: Parameters, file: &[u8], x: &mut [i32]) -> Result<(), Refusal>
    requires { (set_of p ≡ head_of file.now) × Passes (count_checks file.now) × (length x.old ≡ 2 * p.n) }
    ensures { answered result ≡ outcome (arrays_checks (head_of file.now) (entries_of file.now)) tt }
{
    let mut at = FIRST_ENTRY;
    for k in 0..entry_count(file) {
        array_refusal(p, file, at, x)?;
        at = next_at(file, at);
    }
    Ok(())
}

// The arrays are judged one at a time in 8 KiB of stack.
pub(crate) fn arrays_refusal(p: Parameters, file: &[u8]) -> Result<(), Refusal>
    requires { (set_of p ≡ head_of file.now) × Passes (count_checks file.now) }
    ensures { answered result ≡ outcome (arrays_checks (head_of file.now) (entries_of file.now)) tt }
{
    let mut x = [0i32; 2048];
    arrays_refusal_in(p, file, &mut x[..2 * (p.n as usize)])
}
