// Parameter sets that are accepted, as a type.
ghost use Rattle.refusals.specs.Outcomes.{Passes};
ghost use Rattle.parameters.specs.Sets.{set_of, parameter_checks};

use crate::Parameters;

// A parameter set that none of refusals 1 to 6 meets, so that whoever is handed one need not ask again.
#[derive(Clone, Copy)]
pub struct CheckedParameters {
    pub parameters: Parameters,
    ghost passes: { Passes (parameter_checks (set_of parameters)) },
}
