// A list of records that is laid out as numbers: place, unit, place, unit and so on.
ghost use Rattle.std.specs.Prelude.{◌≡◌, not, ◌&&◌, [], ◌∷◌, ◌++◌, ◌*◌, eqb, ltb, length, get_or};
ghost use Rattle.refusals.specs.Outcomes.{outcome, ◌if◌};
ghost use Rattle.refusals.specs.Numbers.{answered};
ghost use Rattle.parameters.specs.Sets.{set_of, parameter_checks};
ghost use Rattle.placed_units.specs.Layout.{records_from};
ghost use Rattle.placed_ephemerals.specs.Calls.{not_all_there};

use parameters::Parameters;
use placed_units::PlacedUnit;
use refusals::Refusal;

// Whether a list has s records, whose numbers are all given. Twice a count might not fit, but twice s does.
fn all_there(p: Parameters, given: usize, count: usize) -> bool
    ensures { result ≡ (not (ltb given (2 * count)) && eqb count p.s) }
{
    count == p.s as usize && 2 * (p.s as usize) <= given
}

// What is asked before a list of `count` records is read: the parameters, then 7 where its numbers are not all given or it has not s records.
pub fn check_numbers(p: Parameters, given: usize, count: usize) -> Result<(), Refusal>
    ensures { answered result ≡ outcome (parameter_checks (set_of p) ++ not_all_there given count ∷ 7 if not (eqb count p.s) ∷ []) tt }
{
    p.check()?;
    Refusal::WrongLength.when(!all_there(p, given, count))
}

// One number of a list, 0 past its end.
fn number_at(numbers: &[u32], k: usize) -> u32
    ensures { result ≡ get_or numbers.now k 0 }
{
    numbers.get(k).copied().unwrap_or(0)
}

// The records that are laid out as numbers, from the first one on, to places: as many as it has room for. A number that is not there counts as 0.
pub fn read_places(numbers: &[u32], places: &mut [PlacedUnit])
    ensures { places.new ≡ records_from numbers.now 0 (length places.old) }
{
    for (k, r) in places.iter_mut().enumerate() {
        *r = PlacedUnit {
            place: number_at(numbers, 2 * k),
            unit: number_at(numbers, 2 * k + 1),
        };
    }
}
