// Convolution modulo q: document 01's call, by halving (document 02, wish 5).
// It knows nothing of keys and messages, and no other product.
// It ends with `Ok`, or with document 01's first refusal that applies, and then its output is as it came.
// The parts c and d of q are handed on one by one, as a parameter set has them and C: a pair would be made for the call and taken apart in it.

#![tactic(auto)]

ghost use Rattle.std.specs.Prelude.{length};
ghost use Rattle.refusals.specs.Outcomes.{number, Gives};
ghost use Rattle.refusals.specs.Numbers.{answered};
ghost use Rattle.parameters.specs.Sets.{set_of};
ghost use Rattle.convolution.specs.Calls.{convolving};

mod wrapping;

use halved_products::convolve_up_to_16;
use parameters::Parameters;
use refusals::Refusal;

// x × y reduced modulo q, to out: by direct sums up to 16 coefficients, by halving above.
pub fn convolve(p: Parameters, x: &[i32], y: &[i32], out: &mut [i32]) -> Result<(), Refusal>
    ensures { Gives (convolving (set_of p) x.now y.now (length out.old)) (number (answered result)) out.old out.new }
{
    let formed = convolve_up_to_16(p, x, y, out)?;
    if !formed {
        wrapping::convolve(x, y, p.n as usize, p.c, p.d, out);
    }
    Ok(())
}
