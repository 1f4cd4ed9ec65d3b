// The direct sum: one coefficient of the product of two arrays, before the wrap. It is taken for 16 coefficients or fewer.
ghost use Rattle.std.specs.Prelude.{◌≡◌, ◌+◌, ◌-◌, ◌*◌, ◌^◌, ◌<◌, ◌≤◌, pos, nat_abs, length, get_or};
ghost use Rattle.eisenstein.specs.Values.{value, ◌*ω◌};
ghost use Rattle.polynomials.specs.Polynomials.{coefficient, sum};
ghost use Rattle.arrays.specs.Arrays.{AllWithin};
ghost use Rattle.halving.specs.Products.{product};

use eisenstein::Wide;

// One number of an array, without the test that `arrays::at` makes.
fn at(x: &[i32], k: usize) -> i64
    requires { k < length x.now }
    ensures { (result ≡ get_or x.now k (pos 0)) × (nat_abs result ≤ 2 ^ 31) }
{
    x[k] as i64
}

// The product of coefficients j of x and k of y, by three multiplications of numbers.
fn product(x: &[i32], y: &[i32], j: usize, k: usize) -> Wide
    requires j_bound { (j < 2048) × (k < 2048) × (2 * j + 1 < length x.now) × (2 * k + 1 < length y.now) }
    requires all_within { AllWithin (2 ^ 23) x.now }
    requires all_within_2 { AllWithin (2 ^ 23) y.now }
    ensures { (value result.a result.b ≡ coefficient x.now j *ω coefficient y.now k) × (nat_abs result.a ≤ 2 ^ 49) × (nat_abs result.b ≤ 2 ^ 49) }
{
    let xa = at(x, 2 * j);
    let xb = at(x, 2 * j + 1);
    let ya = at(y, 2 * k);
    let yb = at(y, 2 * k + 1);
    let first = xa * ya;
    Wide {
        a: first - xb * yb,
        b: first - (xa - xb) * (ya - yb),
    }
}

// The sum of x_j·y_(base − j) for j from `from` to `to`.
fn dot(x: &[i32], y: &[i32], from: usize, to: usize, base: usize) -> Wide
    requires from_le_to { (from ≤ to) × (to ≤ 16) × (to ≤ base + 1) × (2 * to ≤ length x.now) × (2 * (base + 1 - from) ≤ length y.now) × (base < 2048) }
    requires all_within { AllWithin (2 ^ 23) x.now }
    requires all_within_2 { AllWithin (2 ^ 23) y.now }
    ensures { (value result.a result.b ≡ sum (to - from) (λ j. coefficient x.now (from + j) *ω coefficient y.now (base - (from + j))))
        × (nat_abs result.a ≤ (to - from) * 2 ^ 49) × (nat_abs result.b ≤ (to - from) * 2 ^ 49) }
{
    let mut a = 0;
    let mut b = 0;
    for j in from..to {
        let p = product(x, y, j, base - j);
        a += p.a;
        b += p.b;
    }
    Wide { a, b }
}

// Coefficient i of the product of two arrays of at most 16 coefficients.
pub(crate) fn product_at(x: &[i32], y: &[i32], n: usize, i: usize) -> Wide
    requires n_bound { (n ≤ 16) × (i < 2 * n) × (length x.now ≡ 2 * n) × (length y.now ≡ 2 * n) }
    requires all_within { AllWithin (2 ^ 23) x.now }
    requires all_within_2 { AllWithin (2 ^ 23) y.now }
    ensures { (value result.a result.b ≡ product (coefficient x.now) (coefficient y.now) i) × (nat_abs result.a ≤ 2 ^ 53) × (nat_abs result.b ≤ 2 ^ 53) }
{
    if i < n {
        dot(x, y, 0, i + 1, i)
    } else {
        dot(x, y, i + 1 - n, n, i)
    }
}
