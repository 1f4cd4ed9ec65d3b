// The refusals 23, 24 and 10 of a list with s records, and the array that it spreads to.
ghost use Rattle.std.specs.Prelude.{◌≡◌, ◌&&◌, ◌*◌, eqb, length};
ghost use Rattle.refusals.specs.Outcomes.{number, outcome, Gives, Passes};
ghost use Rattle.refusals.specs.Numbers.{answered};
ghost use Rattle.parameters.specs.Sets.{set_of};
ghost use Rattle.polynomials.specs.Polynomials.{array};
ghost use Rattle.arrays.specs.Arrays.{full, Zeros};
ghost use Rattle.placed_units.specs.PlacedUnits.{spread};
ghost use Rattle.placed_ephemerals.specs.Calls.{place_checks};

use crate::laying;
use array_sets::{ArraySet, check_array};
use parameters::{CheckedParameters, Parameters};
use placed_units::PlacedUnit;
use refusals::Refusal;

// Whether a list has s records, and the output's length is 2N.
pub(crate) fn has_lengths(p: Parameters, records: usize, room: usize) -> bool
    ensures { result ≡ (eqb records p.s && full p.n room) }
{
    records == p.s as usize && room == 2 * (p.n as usize)
}

// Lays a list into x, an array of zeros, which shows whether a place occurs twice and whether φ is in its set.
fn lay_checked(p: CheckedParameters, places: &[PlacedUnit], x: &mut [i32]) -> Result<(), Refusal>
    requires { (length x.old ≡ 2 * p.parameters.n) × Zeros x.old }
    ensures refusal { answered result ≡ outcome (place_checks (set_of p.parameters) places.now) tt }
    ensures laid { Passes (place_checks (set_of p.parameters) places.now) → x.new ≡ array p.parameters.n (spread places.now) }
{
    if laying::any_out_of_range(p.parameters.n, places) {
        return Err(Refusal::PlaceOrUnitOutOfRange);
    }
    if !laying::lay(p.parameters.n, places, x) {
        return Err(Refusal::PlaceOccursTwice);
    }
    check_array(p.parameters, ArraySet::Phi, x)
}

// Only the array of a list that is not refused goes to phi, so a refusal leaves phi as it came.
pub(crate) fn spread_into(
    p: CheckedParameters,
    places: &[PlacedUnit],
    phi: &mut [i32],
) -> Result<(), Refusal>
    requires { length phi.old ≡ 2 * p.parameters.n }
    ensures { Gives (outcome (place_checks (set_of p.parameters) places.now) (array p.parameters.n (spread places.now)))
        (number (answered result)) phi.old phi.new }
{
    let mut laid = [0i32; 2048];
    let x = &mut laid[..2 * (p.parameters.n as usize)];
    lay_checked(p, places, x)?;
    phi.copy_from_slice(x);
    Ok(())
}
