// The product by halving: of two arrays, before the wrap.
ghost use Rattle.std.specs.Prelude.{◌≡◌, ℕ, ◌+◌, ◌-◌, ◌*◌, ◌^◌, ◌<◌, ◌≤◌, pos, nat_abs, length, get_or, set};
ghost use Rattle.polynomials.specs.Polynomials.{coefficient};
ghost use Rattle.arrays.specs.Arrays.{AllWithin};
ghost use Rattle.halving.specs.Products.{product};
ghost use Rattle.halved_products.specs.Conditions.{Factors, Halvable};
ghost use Rattle.halved_products.specs.Steps.{Apart, Combined, joined_in};

use crate::direct::product_at;
use std::ops::{Add, Sub};

// x_(to + k) becomes op(x_(to + k), x_(from + k)) for each k below count. The two parts are apart.
fn combine<T: Copy, F: Fn(T, T) -> T>(x: &mut [T], to: usize, from: usize, count: usize, op: F)
    requires inside { (to + count ≤ length x.old) × (from + count ≤ length x.old) × (length x.old ≤ 2 ^ 16) }
    requires apart { Apart to from count }
    requires callable { (d : T) (k : ℕ) → k < count → F.pre op (get_or x.old (to + k) d) (get_or x.old (from + k) d) }
    ensures { Combined (F.post op) to from x.old x.new count }
{
    for k in 0..count {
        x[to + k] = op(x[to + k], x[from + k]);
    }
}

// The product of two arrays of at most 16 coefficients, by direct sums.
fn multiply_few(x: &[i32], y: &[i32], n: usize, w: &mut [i64])
    requires le_n { (1 ≤ n) × (n ≤ 16) × (length x.now ≡ 2 * n) × (length y.now ≡ 2 * n) × (4 * n ≤ length w.old) }
    requires all_within { AllWithin (2 ^ 23) x.now }
    requires all_within_2 { AllWithin (2 ^ 23) y.now }
    ensures { (i : ℕ) → i < 2 * n → coefficient w.new i ≡ product (coefficient x.now) (coefficient y.now) i }
{
    for i in 0..2 * n {
        let v = product_at(x, y, n, i);
        w[2 * i] = v.a;
        w[2 * i + 1] = v.b;
    }
}

// Puts three products together: those of the halves, at coefficients 0 and 2h, and that of their sums, at 2n.
fn join(w: &mut [i64], n: usize, h: usize)
    requires n_bound { (n ≤ 1024) × (h ≤ n) × (n ≤ 2 * h) × (3 * h ≤ 2 * n) × (4 * n + 4 * h ≤ length w.old) × (length w.old ≤ 2 ^ 16) }
    requires by_index { (k : ℕ) → k < 4 * n + 4 * h → nat_abs (get_or w.old k (pos 0)) ≤ 2 ^ 59 }
    ensures { (i : ℕ) → i < 2 * n → coefficient w.new i ≡ joined_in n h (coefficient w.old) i }
{
    combine(w, 4 * n, 0, 4 * h, i64::sub);
    combine(w, 4 * n, 4 * h, 4 * (n - h), i64::sub);
    combine(w, 2 * h, 4 * n, 4 * h, i64::add);
}

// The product of two arrays of n coefficients: 2n coefficients at the start of w. Behind them w is room for the smaller products.
// The halves of x and y are added up in place, and x and y are restored.
pub(crate) fn multiply(x: &mut [i32], y: &mut [i32], n: usize, w: &mut [i64])
    requires factors { Factors n x.old y.old w.old }
    requires halvable { Halvable n x.old }
    requires halvable_2 { Halvable n y.old }
    ensures { (x.new ≡ x.old) × (y.new ≡ y.old)
        × ((i : ℕ) → i < 2 * n → coefficient w.new i ≡ product (coefficient x.old) (coefficient y.old) i) }
{
    if n <= 16 {
        multiply_few(x, y, n, w);
        return;
    }
    let m = n / 2;
    let h = n - m;
    let half = 2 * h;
    let rest = 2 * m;
    let outer = 2 * half;
    let inner = 2 * (2 * n);
    multiply(&mut x[..half], &mut y[..half], h, w);
    multiply(&mut x[half..], &mut y[half..], m, &mut w[outer..]);
    combine(x, 0, half, rest, i32::add);
    combine(y, 0, half, rest, i32::add);
    multiply(&mut x[..half], &mut y[..half], h, &mut w[inner..]);
    combine(x, 0, half, rest, i32::sub);
    combine(y, 0, half, rest, i32::sub);
    join(w, n, h);
}
