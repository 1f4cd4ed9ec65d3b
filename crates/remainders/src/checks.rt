// The refusals of one value modulo q, in document 01's order.
ghost use Rattle.std.specs.Prelude.{◌≡◌};
ghost use Rattle.refusals.specs.Outcomes.{outcome};
ghost use Rattle.refusals.specs.Numbers.{answered};
ghost use Rattle.eisenstein.specs.Values.{value};
ghost use Rattle.remainders.specs.Calls.{reduction_checks};

use eisenstein::{is_zero, modulus_out_of_range, value_out_of_range};
use refusals::Refusal;

pub(crate) fn reduction_refusal(a: i64, b: i64, c: i32, d: i32) -> Result<(), Refusal>
    ensures { answered result ≡ outcome (reduction_checks (value c d) (value a b)) tt }
{
    if modulus_out_of_range(c, d) {
        return Err(Refusal::ModulusPartOutOfRange);
    }
    if is_zero(c as i64, d as i64) {
        return Err(Refusal::ModulusZero);
    }
    if value_out_of_range(a, b) {
        return Err(Refusal::ValueOutOfRange);
    }
    Ok(())
}
