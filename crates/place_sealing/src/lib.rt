// Sealing from a list of places, as records or laid out as numbers: what `sealing` gives with the array that the list spreads to.
// It ends with `Ok`, or with document 02's first refusal that applies, and then its output is as it came.
// At every N `seal_places` takes less than 20 KiB of stack, and `seal_numbers` 8 KiB more, for the records.

#![tactic(auto)]

ghost use Rattle.std.specs.Prelude.{length};
ghost use Rattle.refusals.specs.Outcomes.{number, Gives};
ghost use Rattle.refusals.specs.Numbers.{answered};
ghost use Rattle.parameters.specs.Sets.{set_of};
ghost use Rattle.placed_ephemerals.specs.Calls.{places_sealing, numbers_sealing};

mod spread;

use parameters::Parameters;
use placed_units::PlacedUnit;
use refusals::Refusal;

// Seals a message with the public key h and the ephemeral that a list of places spreads to, to e.
pub fn seal_places(
    p: Parameters,
    h: &[i32],
    places: &[PlacedUnit],
    message: &[u8],
    e: &mut [i32],
) -> Result<(), Refusal>
    ensures { Gives (places_sealing (set_of p) h.now places.now message.now (length e.old))
        (number (answered result)) e.old e.new }
{
    spread::refusal_before_places(p, h, places.len(), message.len(), e.len())?;
    spread::seal_spread(p, h, places, message, e)
}

// The same of the list of `count` records that is laid out as numbers. Numbers behind the list are not looked at.
pub fn seal_numbers(
    p: Parameters,
    h: &[i32],
    numbers: &[u32],
    count: usize,
    message: &[u8],
    e: &mut [i32],
) -> Result<(), Refusal>
    ensures { Gives (numbers_sealing (set_of p) h.now numbers.now count message.now (length e.old))
        (number (answered result)) e.old e.new }
{
    place_spreading::check_numbers(p, numbers.len(), count)?;
    let mut room = [PlacedUnit { place: 0, unit: 0 }; 1024];
    let places = &mut room[..count];
    place_spreading::read_places(numbers, places);
    seal_places(p, h, places, message, e)
}
