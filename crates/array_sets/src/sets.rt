// The test whether an array is in its set, and the refusal of one that is not.
ghost use Rattle.std.specs.Prelude.{◌≡◌, ◌*◌, length};
ghost use Rattle.refusals.specs.Outcomes.{refused, outcome};
ghost use Rattle.refusals.specs.Numbers.{answered};
ghost use Rattle.parameters.specs.Sets.{set_of};
ghost use Rattle.array_sets.specs.Sets.{in_set, not_in_set, array_checks};

use crate::ArraySet;
use parameters::{CheckedParameters, Parameters};
use refusals::Refusal;
use set_tests::{reduced_modulo_2, reduced_modulo_q, units_only, whole_triples};

fn in_set(p: CheckedParameters, which: ArraySet, x: &[i32]) -> bool
    requires { length x.now ≡ 2 * p.parameters.n }
    ensures { result ≡ in_set (set_of p.parameters) which x.now }
{
    let Parameters { n, c, d, s, t } = p.parameters;
    match which {
        ArraySet::F => units_only(x, n, t),
        ArraySet::G => whole_triples(x, n, s),
        ArraySet::Phi => whole_triples(x, n, s),
        ArraySet::ReducedModulo2 => reduced_modulo_2(x, n),
        ArraySet::ReducedModuloQ => reduced_modulo_q(x, n, c, d),
    }
}

fn not_in_set(which: ArraySet) -> Result<(), Refusal>
    ensures { answered result ≡ refused (not_in_set which) }
{
    match which {
        ArraySet::F => Err(Refusal::FNotInItsSet),
        ArraySet::G => Err(Refusal::GNotInItsSet),
        ArraySet::Phi => Err(Refusal::PhiNotInItsSet),
        ArraySet::ReducedModulo2 => Err(Refusal::NotReducedModulo2),
        ArraySet::ReducedModuloQ => Err(Refusal::NotReducedModuloQ),
    }
}

pub(crate) fn array_refusal(p: CheckedParameters, which: ArraySet, x: &[i32]) -> Result<(), Refusal>
    ensures { answered result ≡ outcome (array_checks (set_of p.parameters) which x.now) tt }
{
    if x.len() != 2 * (p.parameters.n as usize) {
        return Err(Refusal::WrongLength);
    }
    if !in_set(p, which, x) {
        return not_in_set(which);
    }
    Ok(())
}
