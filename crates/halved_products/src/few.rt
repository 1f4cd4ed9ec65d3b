// Convolution modulo q of at most 16 coefficients: by direct sums, each wrapped at N and reduced.
ghost use Rattle.std.specs.Prelude.{◌≡◌, cond, ◌*◌, ◌<◌, ◌≤◌, leb, length};
ghost use Rattle.eisenstein.specs.Values.{value};
ghost use Rattle.eisenstein.specs.Reduction.{mod_q};
ghost use Rattle.polynomials.specs.Polynomials.{coefficient, array, convolution};
ghost use Rattle.arrays.specs.Arrays.{Small};
ghost use Rattle.halved_products.specs.Conditions.{Convolvable};

use crate::direct::product_at;
use eisenstein::Wide;
use remainders::store_remainder;

// Coefficient i of the convolution of two arrays of at most 16 coefficients: that of the product, and what is wrapped to it.
fn few_wrapped_at(x: &[i32], y: &[i32], n: usize, i: usize) -> Wide
    requires i_lt_n { (i < n) × (n ≤ 16) × (length x.now ≡ 2 * n) × (length y.now ≡ 2 * n) }
    requires small { Small x.now }
    requires small_2 { Small y.now }
    ensures { value result.a result.b ≡ convolution n (coefficient x.now) (coefficient y.now) i }
{
    let early = product_at(x, y, n, i);
    let later = product_at(x, y, n, n + i);
    Wide {
        a: early.a + later.a,
        b: early.b + later.b,
    }
}

// x × y reduced modulo q, to out, for at most 16 coefficients. Answers whether it was formed; nothing is written otherwise.
// The answer is a bool and no Option, since the value goes to a lent output.
pub(crate) fn convolve_few(x: &[i32], y: &[i32], n: usize, c: i32, d: i32, out: &mut [i32]) -> bool
    requires { Convolvable n (value c d) x.now y.now out.old }
    ensures { (result ≡ leb n 16) × (out.new ≡ cond (leb n 16) (array n (λ i. mod_q (value c d) (convolution n (coefficient x.now) (coefficient y.now) i))) out.old) }
{
    if n > 16 {
        return false;
    }
    for k in 0..n {
        store_remainder(out, k, few_wrapped_at(x, y, n, k), c, d);
    }
    true
}
