// The refusals of the key check up to those of its arrays: the first that applies, in document 01's order.
// Whether F2 and Fq are inverses of f is not asked here.
// The arrays of a key are handed on one by one, as C lends them: a struct of references would be made for the call and taken apart in it.

#![tactic(auto)]

ghost use Rattle.std.specs.Prelude.{◌≡◌, ◌&&◌, ◌++◌};
ghost use Rattle.refusals.specs.Outcomes.{outcome};
ghost use Rattle.refusals.specs.Numbers.{answered};
ghost use Rattle.parameters.specs.Sets.{set_of, parameter_checks};
ghost use Rattle.arrays.specs.Arrays.{full};
ghost use Rattle.etru.specs.Calls.{key_array_checks};

use array_sets::{ArraySet, check_array};
use arrays::three_full;
use parameters::Parameters;
use refusals::Refusal;

fn five_full(n: u32, x: usize, y: usize, z: usize, u: usize, v: usize) -> bool
    ensures { result ≡ (full n x && (full n y && (full n z && (full n u && full n v)))) }
{
    let long = 2 * (n as usize);
    if x == long {
        if y == long {
            return three_full(n, z, u, v);
        }
    }
    false
}

// Those of the parameter set, 7 for all lengths, then array by array.
pub fn key_array_refusal(
    p: Parameters,
    f: &[i32],
    f2: &[i32],
    fq: &[i32],
    g: &[i32],
    room: usize,
) -> Result<(), Refusal>
    ensures { answered result ≡ outcome (parameter_checks (set_of p) ++ key_array_checks (set_of p) f.now f2.now fq.now g.now room) tt }
{
    p.check()?;
    Refusal::WrongLength.when(!five_full(p.n, f.len(), f2.len(), fq.len(), g.len(), room))?;
    check_array(p, ArraySet::F, f)?;
    check_array(p, ArraySet::ReducedModulo2, f2)?;
    check_array(p, ArraySet::ReducedModuloQ, fq)?;
    check_array(p, ArraySet::G, g)
}
