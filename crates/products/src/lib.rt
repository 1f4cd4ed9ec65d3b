// Products of arrays, reduced: the product with an array of zeros and units, modulo q and modulo 2.
// What an array stands for in the scheme is not this crate's business.
// No function relies on its caller: each asks of its arrays what its arithmetic needs.
// The parts c and d of q are handed on one by one, as a parameter set has them and C: a pair would be made for the call and taken apart in it.

#![tactic(auto)]

ghost use Rattle.std.specs.Prelude.{◌&&◌, length};
ghost use Rattle.eisenstein.specs.Values.{value};
ghost use Rattle.eisenstein.specs.Reduction.{mod_q, mod2};
ghost use Rattle.polynomials.specs.Polynomials.{coefficient, array, convolution};
ghost use Rattle.unit_operands.specs.Operands.{Forms, multipliable};
ghost use Rattle.products.specs.Products.{usable};

mod checks;
mod reductions;

use crate::reductions::reduce_all;
use eisenstein::remainder_2;
use remainders::remainder_q;
use unit_products::multiply_units;

// x × y modulo q = (c, d), to out, where x is of zeros and units. Answers whether it was formed; nothing is written otherwise.
// The answer is a bool and no Option, since the value goes to a lent output.
pub fn multiply_units_modulo_q(
    n: u32,
    c: i32,
    d: i32,
    x: &[i32],
    y: &[i32],
    out: &mut [i32],
) -> bool
    ensures { Forms (multipliable n x.now y.now (length out.old) && usable (value c d))
        (array n (λ i. mod_q (value c d) (convolution n (coefficient x.now) (coefficient y.now) i))) result out.old out.new }
{
    if !checks::usable(c, d) || !multiply_units(n, x, y, out) {
        return false;
    }
    reduce_all(out, n as usize, |a, b| remainder_q(a, b, c, d));
    true
}

// The same modulo 2.
pub fn multiply_units_modulo_2(n: u32, x: &[i32], y: &[i32], out: &mut [i32]) -> bool
    ensures { Forms (multipliable n x.now y.now (length out.old))
        (array n (λ i. mod2 (convolution n (coefficient x.now) (coefficient y.now) i))) result out.old out.new }
{
    if !multiply_units(n, x, y, out) {
        return false;
    }
    reduce_all(out, n as usize, remainder_2);
    true
}
