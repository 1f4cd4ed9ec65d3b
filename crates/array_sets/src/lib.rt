// The sets that an array is held to, of f, of g and of φ, or being reduced, and the refusals 7 to 12 of one array.
// It looks at no coefficient itself, forms no product of arrays, and changes none.

#![tactic(auto)]

ghost use Rattle.std.specs.Prelude.{◌≡◌};
ghost use Rattle.refusals.specs.Numbers.{answered};
ghost use Rattle.parameters.specs.Sets.{set_of};
ghost use Rattle.array_sets.specs.Sets.{array_check};

mod sets;

use parameters::Parameters;
use refusals::Refusal;

// What an array can be held to: the set of f, of g or of φ, or that it is reduced.
#[derive(Clone, Copy)]
pub enum ArraySet {
    F,
    G,
    Phi,
    ReducedModulo2,
    ReducedModuloQ,
}

// Whether one array of a parameter set is in a set.
pub fn check_array(p: Parameters, which: ArraySet, x: &[i32]) -> Result<(), Refusal>
    ensures { answered result ≡ array_check (set_of p) which x.now }
{
    let p = p.checked()?;
    sets::array_refusal(p, which, x)
}
