// The call that writes a bundle, from a parameter set, stops and the numbers of sealed arrays.
// It writes to lent bytes, and opens no file of the system. It ends with `Ok`, or with the first refusal that applies, and then its output is as it came.
// At every N it takes less than 12 KiB of stack.

#![tactic(auto)]

ghost use Rattle.std.specs.Prelude.{◌≡◌, length};
ghost use Rattle.refusals.specs.Outcomes.{outcome, number, Gives};
ghost use Rattle.refusals.specs.Numbers.{answered};
ghost use Rattle.parameters.specs.Sets.{set_of};
ghost use Rattle.bundles.specs.Calls.{writing_bundle, given_checks};

mod entries;
mod lengths;
mod writing;

use parameters::{CheckedParameters, Parameters};
use refusals::Refusal;

// 7, 25 over all stops, then each entry's 12.
fn given_refusal(
    p: CheckedParameters,
    stops: &[u16],
    numbers: &[i32],
    room: usize,
) -> Result<(), Refusal>
    ensures { answered result ≡ outcome (given_checks (set_of p.parameters) stops.now numbers.now room) tt }
{
    if !lengths::lengths_right(p.parameters.n, stops.len(), numbers.len(), room) {
        return Err(Refusal::WrongLength);
    }
    if stop_sets::any_twice(stops) {
        return Err(Refusal::StopOccursTwice);
    }
    entries::arrays_refusal(p, stops, numbers)
}

// A bundle, to file. The numbers are the arrays of the entries, one after another.
pub fn write_bundle(
    p: Parameters,
    stops: &[u16],
    numbers: &[i32],
    file: &mut [u8],
) -> Result<(), Refusal>
    ensures { Gives (writing_bundle (set_of p) stops.now numbers.now (length file.old)) (number (answered result)) file.old file.new }
{
    let p = p.checked()?;
    given_refusal(p, stops, numbers, file.len())?;
    writing::write_file(p, stops, numbers, file);
    Ok(())
}
