// The call that reads a bundle to two outputs: its stops, and the numbers of its arrays.
// It works on lent bytes, and opens no entry. It ends with a result, or with the first refusal that applies, and then its outputs are as they came.
// At every N it takes less than 12 KiB of stack.

#![tactic(auto)]

ghost use Rattle.std.specs.Prelude.{◌≡◌, length};
ghost use Rattle.refusals.specs.Outcomes.{outcome, number, Gives, Passes};
ghost use Rattle.refusals.specs.Numbers.{answered};
ghost use Rattle.parameters.specs.Sets.{set_of};
ghost use Rattle.heads.specs.Heads.{head_of};
ghost use Rattle.bundles.specs.Bundles.{stops_of, numbers_of, count_of, entries_of};
ghost use Rattle.bundles.specs.Calls.{right_outputs, count_checks, output_checks, reading_stops, reading_numbers};

mod entry_numbers;

use bundle_checks::check_bundle;
use bundle_heads::{entry_count, read_bundle_head};
use bundle_stops::read_stops;
use entry_numbers::read_arrays;
use parameters::Parameters;
use refusals::Refusal;

// 7 for both outputs.
fn outputs_right(n: u32, file: &[u8], stops: usize, numbers: usize) -> bool
    ensures { result ≡ right_outputs n (count_of file.now) stops numbers }
{
    let count = entry_count(file) as usize;
    stops == count && numbers == 2 * (n as usize) * count
}

// The stops and the numbers, of a bundle whose head, count and length are right.
fn read_entries(
    p: Parameters,
    file: &[u8],
    stops: &mut [u32],
    numbers: &mut [i32],
) -> Result<(), Refusal>
    requires { (set_of p ≡ head_of file.now) × Passes (count_checks file.now) }
    ensures gives { Gives (outcome (output_checks file.now (length stops.old) (length numbers.old)) (stops_of (entries_of file.now)))
        (number (answered result)) stops.old stops.new }
    ensures gives_2 { Gives (outcome (output_checks file.now (length stops.old) (length numbers.old)) (numbers_of (entries_of file.now)))
        (number (answered result)) numbers.old numbers.new }
{
    if !outputs_right(p.n, file, stops.len(), numbers.len()) {
        return Err(Refusal::WrongLength);
    }
    check_bundle(file)?;
    read_stops(file, stops);
    read_arrays(file, numbers);
    Ok(())
}

// The stops of a bundle to stops, and its arrays, one after another in stored order, to numbers.
pub fn read_bundle(file: &[u8], stops: &mut [u32], numbers: &mut [i32]) -> Result<(), Refusal>
    ensures gives { Gives (reading_stops file.now (length stops.old) (length numbers.old))
        (number (answered result)) stops.old stops.new }
    ensures gives_2 { Gives (reading_numbers file.now (length stops.old) (length numbers.old))
        (number (answered result)) numbers.old numbers.new }
{
    let p = read_bundle_head(file)?;
    read_entries(p, file, stops, numbers)
}
