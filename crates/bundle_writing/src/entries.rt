// The arrays that are handed over are judged entry by entry: each is the next 2N numbers.
ghost use Rattle.std.specs.Prelude.{◌≡◌, ◌*◌, ◌<◌, length};
ghost use Rattle.refusals.specs.Outcomes.{outcome};
ghost use Rattle.refusals.specs.Numbers.{answered};
ghost use Rattle.parameters.specs.Sets.{set_of};
ghost use Rattle.array_sets.specs.Sets.{array_check};
ghost use Rattle.array_sets.specs.declared.ArraySet.TheVariants.{ReducedModuloQ};
ghost use Rattle.bundles.specs.Bundles.{array_of};
ghost use Rattle.bundles.specs.Calls.{arrays_checks, entries_given};

use array_sets::{ArraySet, check_array};
use parameters::{CheckedParameters, Parameters};
use refusals::Refusal;

fn array_refusal(p: Parameters, stops: &[u16], numbers: &[i32], k: usize) -> Result<(), Refusal>
    requires { (length numbers.now ≡ 2 * p.n * length stops.now) × (k < length stops.now) }
    ensures { answered result ≡ array_check (set_of p) ReducedModuloQ (array_of (entries_given p.n stops.now numbers.now) k) }
{
    let width = 2 * (p.n as usize);
    let from = width * k;
    check_array(p, ArraySet::ReducedModuloQ, &numbers[from..from + width])
}

pub(crate) fn arrays_refusal(
    p: CheckedParameters,
    stops: &[u16],
    numbers: &[i32],
) -> Result<(), Refusal>
    requires { length numbers.now ≡ 2 * p.parameters.n * length stops.now }
    ensures { answered result ≡ outcome (arrays_checks (set_of p.parameters) (entries_given p.parameters.n stops.now numbers.now)) tt }
{
    for k in 0..stops.len() {
        array_refusal(p.parameters, stops, numbers, k)?;
    }
    Ok(())
}
