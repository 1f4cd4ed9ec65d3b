// The refusals of opening: the first that applies, in document 01's order.
// It opens nothing, and does not ask whether F2 is the inverse of f.

#![tactic(auto)]

ghost use Rattle.std.specs.Prelude.{◌≡◌, ◌++◌};
ghost use Rattle.refusals.specs.Outcomes.{outcome};
ghost use Rattle.refusals.specs.Numbers.{answered};
ghost use Rattle.parameters.specs.Sets.{set_of, parameter_checks};
ghost use Rattle.etru.specs.Calls.{opening_checks};

use array_sets::{ArraySet, check_array};
use parameters::Parameters;
use refusals::Refusal;

// Those of the parameter set, 7 for all lengths, then f, F2 and e.
pub fn opening_refusal(
    p: Parameters,
    f: &[i32],
    f2: &[i32],
    e: &[i32],
    room: usize,
) -> Result<(), Refusal>
    ensures { answered result ≡ outcome (parameter_checks (set_of p) ++ opening_checks (set_of p) f.now f2.now e.now room) tt }
{
    p.check()?;
    Refusal::WrongLength.when(!packing::full_with_message(p.n, room, f.len(), f2.len(), e.len()))?;
    check_array(p, ArraySet::F, f)?;
    check_array(p, ArraySet::ReducedModulo2, f2)?;
    check_array(p, ArraySet::ReducedModuloQ, e)
}
