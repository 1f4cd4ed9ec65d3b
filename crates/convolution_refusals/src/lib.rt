// The refusals of convolution: the first that applies, in document 01's order.
// It multiplies nothing.
// The parts c and d of q are handed on one by one, as a parameter set has them and C: a pair would be made for the call and taken apart in it.

#![tactic(auto)]

ghost use Rattle.std.specs.Prelude.{◌≡◌, ◌++◌};
ghost use Rattle.refusals.specs.Outcomes.{outcome};
ghost use Rattle.refusals.specs.Numbers.{answered};
ghost use Rattle.eisenstein.specs.Values.{value};
ghost use Rattle.parameters.specs.Sets.{set_of, parameter_checks};
ghost use Rattle.arrays.specs.Conditions.{Modulus};
ghost use Rattle.convolution_refusals.specs.Checks.{convolving_checks};

use parameters::Parameters;
use refusals::Refusal;
use set_tests::reduced_modulo_q;

// 7 for all lengths, then 12 for both operands, with a modulus in range and not zero.
fn operand_refusal(x: &[i32], y: &[i32], room: usize, n: u32, c: i32, d: i32) -> Result<(), Refusal>
    requires { Modulus (value c d) }
    ensures { answered result ≡ outcome (convolving_checks n (value c d) x.now y.now room) tt }
{
    if !arrays::three_full(n, x.len(), y.len(), room) {
        return Err(Refusal::WrongLength);
    }
    if !reduced_modulo_q(x, n, c, d) {
        return Err(Refusal::NotReducedModuloQ);
    }
    if !reduced_modulo_q(y, n, c, d) {
        return Err(Refusal::NotReducedModuloQ);
    }
    Ok(())
}

// Those of the parameter set, 7 for all lengths, then 12 for both operands.
pub fn convolving_refusal(p: Parameters, x: &[i32], y: &[i32], room: usize) -> Result<(), Refusal>
    ensures { answered result ≡ outcome (parameter_checks (set_of p) ++ convolving_checks p.n (value p.c p.d) x.now y.now room) tt }
{
    p.check()?;
    operand_refusal(x, y, room, p.n, p.c, p.d)
}
