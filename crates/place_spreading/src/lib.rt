// Spreading: a list of places, as records or laid out as numbers, to the full array of its ephemeral.
// It seals nothing.
// It ends with `Ok`, or with document 02's first refusal that applies, and then its output is as it came.
// At every N `spread_places` takes less than 12 KiB of stack, and `spread_numbers` 8 KiB more, for the records.

#![tactic(auto)]

ghost use Rattle.std.specs.Prelude.{length};
ghost use Rattle.refusals.specs.Outcomes.{number, Gives};
ghost use Rattle.refusals.specs.Numbers.{answered};
ghost use Rattle.parameters.specs.Sets.{set_of};
ghost use Rattle.placed_ephemerals.specs.Calls.{spreading, numbers_spreading};

mod checked;
mod laying;
mod numbers;

pub use numbers::{check_numbers, read_places};
use parameters::Parameters;
use placed_units::PlacedUnit;
use refusals::Refusal;

// Spreads a list of places to phi.
pub fn spread_places(p: Parameters, places: &[PlacedUnit], phi: &mut [i32]) -> Result<(), Refusal>
    ensures { Gives (spreading (set_of p) places.now (length phi.old))
        (number (answered result)) phi.old phi.new }
{
    let p = p.checked()?;
    Refusal::WrongLength.when(!checked::has_lengths(p.parameters, places.len(), phi.len()))?;
    checked::spread_into(p, places, phi)
}

// Spreads the list of `count` records that is laid out as numbers, to phi. Numbers behind the list are not looked at.
pub fn spread_numbers(
    p: Parameters,
    numbers: &[u32],
    count: usize,
    phi: &mut [i32],
) -> Result<(), Refusal>
    ensures { Gives (numbers_spreading (set_of p) numbers.now count (length phi.old))
        (number (answered result)) phi.old phi.new }
{
    check_numbers(p, numbers.len(), count)?;
    let mut room = [PlacedUnit { place: 0, unit: 0 }; 1024];
    let places = &mut room[..count];
    read_places(numbers, places);
    spread_places(p, places, phi)
}
