// The two parts of sealing from a list: what is asked before its records, and sealing with the array that it spreads to.
ghost use Rattle.std.specs.Prelude.{◌≡◌, ◌&&◌, ◌++◌, eqb, length};
ghost use Rattle.refusals.specs.Outcomes.{number, outcome, Gives, Passes};
ghost use Rattle.refusals.specs.Numbers.{answered};
ghost use Rattle.parameters.specs.Sets.{set_of, parameter_checks};
ghost use Rattle.arrays.specs.Arrays.{full};
ghost use Rattle.packing.specs.Messages.{message_bytes};
ghost use Rattle.placed_ephemerals.specs.Calls.{before_places, places_sealing};

use array_sets::{ArraySet, check_array};
use parameters::Parameters;
use placed_units::PlacedUnit;
use refusals::Refusal;

// Whether the message has its bytes, the list s records, and h and the output 2N numbers.
fn has_lengths(p: Parameters, h: usize, records: usize, message: usize, room: usize) -> bool
    ensures { result ≡ (eqb message (message_bytes p.n) && (eqb records p.s && (full p.n h && full p.n room))) }
{
    records == p.s as usize && packing::full_with_message(p.n, message, h, room, room)
}

// Those of the parameter set, 7 for all lengths, then h.
pub(crate) fn refusal_before_places(
    p: Parameters,
    h: &[i32],
    records: usize,
    message: usize,
    room: usize,
) -> Result<(), Refusal>
    ensures { answered result ≡ outcome (parameter_checks (set_of p) ++ before_places (set_of p) h.now records message room) tt }
{
    p.check()?;
    Refusal::WrongLength.when(!has_lengths(p, h.len(), records, message, room))?;
    check_array(p, ArraySet::ReducedModuloQ, h)
}

// The array of the list goes to phi. Spreading gives 23, 24 and 10; sealing asks again what was asked before them, and then 15.
pub(crate) fn seal_spread(
    p: Parameters,
    h: &[i32],
    places: &[PlacedUnit],
    message: &[u8],
    e: &mut [i32],
) -> Result<(), Refusal>
    requires { Passes (parameter_checks (set_of p) ++ before_places (set_of p) h.now (length places.now) (length message.now) (length e.old)) }
    ensures { Gives (places_sealing (set_of p) h.now places.now message.now (length e.old))
        (number (answered result)) e.old e.new }
{
    let mut room = [0i32; 2048];
    let phi = &mut room[..2 * (p.n as usize)];
    place_spreading::spread_places(p, places, phi)?;
    sealing::seal(p, h, phi, message, e)
}
