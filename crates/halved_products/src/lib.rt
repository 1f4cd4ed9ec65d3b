// The product by halving (document 02, wish 5), before the wrap, and the convolution of at most 16 coefficients, where halving ends.
// It takes no room of its own: whoever calls it lends the room for the smaller products.
// No function relies on its caller.
// The parts c and d of q are handed on one by one, as a parameter set has them and C: a pair would be made for the call and taken apart in it.

#![tactic(auto)]

ghost use Rattle.std.specs.Prelude.{◌≡◌, length};
ghost use Rattle.eisenstein.specs.Values.{value};
ghost use Rattle.eisenstein.specs.Reduction.{mod_q};
ghost use Rattle.parameters.specs.Sets.{set_of};
ghost use Rattle.polynomials.specs.Polynomials.{coefficient, array, convolution};
ghost use Rattle.halving.specs.Operands.{fit_for_halving};
ghost use Rattle.halved_products.specs.Calls.{Multiplies, beginning, Begins};
ghost use Rattle.refusals.specs.Numbers.{answered};

mod direct;
mod few;
mod halves;

use convolution_refusals::convolving_refusal;
use parameters::Parameters;
use refusals::Refusal;

// The product of two arrays of n coefficients, before the wrap: 2n coefficients at the start of w, which has room for the smaller products behind them.
// Answers whether it was formed; w is as it came otherwise, and x and y are so in either case. What stands behind the product afterwards is left free.
// The answer is a bool and no Option, since the value goes to a lent output.
pub fn multiply_halved(x: &mut [i32], y: &mut [i32], n: usize, w: &mut [i64]) -> bool
    ensures { (x.new ≡ x.old) × (y.new ≡ y.old)
        × Multiplies (fit_for_halving n x.old y.old (length w.old)) n x.old y.old result w.old w.new }
{
    if !halving::fit_for_halving(x, y, n, w.len()) {
        return false;
    }
    halves::multiply(x, y, n, w);
    true
}

// Convolution modulo q as far as direct sums go: its refusals for every N, and x × y reduced, to out, where N is at most 16. Above that it is not formed, and out is as it came.
pub fn convolve_up_to_16(
    p: Parameters,
    x: &[i32],
    y: &[i32],
    out: &mut [i32],
) -> Result<bool, Refusal>
    ensures { Begins (beginning (set_of p) x.now y.now (length out.old))
        (array p.n (λ i. mod_q (value p.c p.d) (convolution p.n (coefficient x.now) (coefficient y.now) i))) (answered result) out.old out.new }
{
    convolving_refusal(p, x, y, out.len())?;
    Ok(few::convolve_few(x, y, p.n as usize, p.c, p.d, out))
}
