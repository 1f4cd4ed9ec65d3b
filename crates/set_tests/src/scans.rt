// The loops over an array's coefficients, and the test of one coefficient in each.
// The two that count are loops, since the same as a chain of `filter` and `count` took five times as long: it is compiled one coefficient at a time.
ghost use Rattle.std.specs.Prelude.{◌≡◌, ◌&&◌, ◌+◌, ◌*◌, ◌^◌, ◌<◌, length};
ghost use Rattle.eisenstein.specs.Values.{value, same};
ghost use Rattle.eisenstein.specs.Reduction.{mod_q, mod2};
ghost use Rattle.polynomials.specs.Polynomials.{coefficient, count, nonzero, unit_count, equally_many, reduced_q, reduced2};
ghost use Rattle.arrays.specs.Conditions.{Modulus};

use arrays::{at, equal};

fn nonzero_at(x: &[i32], i: usize) -> bool
    requires { (i < 2 ^ 32) × (2 * i + 1 < length x.now) }
    ensures { result ≡ nonzero (coefficient x.now i) }
{
    !equal_at(x, i, 0, 0)
}

fn equal_at(x: &[i32], i: usize, a: i32, b: i32) -> bool
    requires { (i < 2 ^ 32) × (2 * i + 1 < length x.now) }
    ensures { result ≡ same (coefficient x.now i) (value a b) }
{
    // Both parts are compared, whatever the first gave, so that the counting loops take several coefficients at once.
    (x[2 * i] == a) & (x[2 * i + 1] == b)
}

fn own_remainder_q_at(x: &[i32], i: usize, c: i32, d: i32) -> bool
    requires { (i < 2 ^ 32) × (2 * i + 1 < length x.now) × Modulus (value c d) }
    ensures { result ≡ same (mod_q (value c d) (coefficient x.now i)) (coefficient x.now i) }
{
    own_remainders::is_remainder(x[2 * i], x[2 * i + 1], c, d)
}

fn own_remainder_2_at(x: &[i32], i: usize) -> bool
    requires { i < 2 ^ 32 }
    ensures { result ≡ same (mod2 (coefficient x.now i)) (coefficient x.now i) }
{
    let a = at(x, 2 * i);
    let b = at(x, 2 * i + 1);
    let r = eisenstein::remainder_2(a, b);
    equal(i64::from(r.a), i64::from(r.b), a, b)
}

pub(crate) fn count_nonzero(x: &[i32], n: usize) -> usize
    requires { (n < 2 ^ 32) × (length x.now ≡ 2 * n) }
    ensures { result ≡ count n (λ i. nonzero (coefficient x.now i)) }
{
    let mut found: usize = 0;
    for i in 0..n {
        found += usize::from(nonzero_at(x, i));
    }
    found
}

// How many coefficients are unit k.
fn count_unit(x: &[i32], n: usize, k: usize) -> u32
    requires { (n < 2 ^ 32) × (length x.now ≡ 2 * n) × (k < 6) }
    ensures { result ≡ unit_count n (coefficient x.now) k }
{
    let u = eisenstein::unit(k);
    let mut found: u32 = 0;
    for i in 0..n {
        found += u32::from(equal_at(x, i, u.a, u.b));
    }
    found
}

fn equally_many(x: &[i32], n: usize, j: usize, k: usize, l: usize) -> bool
    requires { (n < 2 ^ 32) × (length x.now ≡ 2 * n) × (j < 6) × (k < 6) × (l < 6) }
    ensures { result ≡ equally_many n (coefficient x.now) j k l }
{
    let found = count_unit(x, n, k);
    count_unit(x, n, j) == found && found == count_unit(x, n, l)
}

// "equally many of units 0, 2 and 4, and equally many of units 1, 3 and 5"
pub(crate) fn in_triples(x: &[i32], n: usize) -> bool
    requires { (n < 2 ^ 32) × (length x.now ≡ 2 * n) }
    ensures { result ≡ (equally_many n (coefficient x.now) 0 2 4 && equally_many n (coefficient x.now) 1 3 5) }
{
    equally_many(x, n, 0, 2, 4) && equally_many(x, n, 1, 3, 5)
}

pub(crate) fn all_reduced_modulo_q(x: &[i32], n: usize, c: i32, d: i32) -> bool
    requires { (n < 2 ^ 32) × (length x.now ≡ 2 * n) × Modulus (value c d) }
    ensures { result ≡ reduced_q n (value c d) (coefficient x.now) }
{
    (0..n).all(|i| own_remainder_q_at(x, i, c, d))
}

pub(crate) fn all_reduced_modulo_2(x: &[i32], n: usize) -> bool
    requires { n < 2 ^ 32 }
    ensures { result ≡ reduced2 n (coefficient x.now) }
{
    (0..n).all(|i| own_remainder_2_at(x, i))
}
