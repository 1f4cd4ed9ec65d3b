// Whether two parameter sets are the same.
// It checks no set: any two are compared, accepted or not.

#![tactic(auto)]

ghost use Rattle.std.specs.Prelude.{◌≡◌};
ghost use Rattle.parameters.specs.Sets.{set_of};
ghost use Rattle.parameter_comparison.specs.Comparison.{same_set};

use parameters::Parameters;

// Whether two sets are the same in all five numbers.
pub fn same_parameters(p: Parameters, other: Parameters) -> bool
    ensures { result ≡ same_set (set_of p) (set_of other) }
{
    p == other
}
