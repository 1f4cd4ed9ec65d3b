// Convolution modulo q of more than 16 coefficients: the product by halving, wrapped at N and reduced.
ghost use Rattle.std.specs.Prelude.{◌≡◌, cond, ℕ, ◌+◌, ◌*◌, ◌^◌, ◌<◌, ◌≤◌, leb, pos, nat_abs, length, get_or, take};
ghost use Rattle.eisenstein.specs.Values.{value};
ghost use Rattle.eisenstein.specs.Reduction.{mod_q};
ghost use Rattle.polynomials.specs.Polynomials.{coefficient, array, convolution};
ghost use Rattle.arrays.specs.Conditions.{Modulus};
ghost use Rattle.halving.specs.Products.{wrapped};
ghost use Rattle.halved_products.specs.Conditions.{Convolvable, Convolved, Factors, Reducible};

use eisenstein::Wide;
use halved_products::multiply_halved;
use remainders::store_remainder;

// Coefficient i of a product of 2n coefficients, wrapped at n.
fn wrapped_at(w: &[i64], n: usize, i: usize) -> Wide
    requires i_lt_n { (i < n) × (n ≤ 1024) × (4 * n ≤ length w.now) }
    requires by_index { (k : ℕ) → k < 4 * n → nat_abs (get_or w.now k (pos 0)) ≤ 2 ^ 59 }
    ensures { value result.a result.b ≡ wrapped n (coefficient w.now) i }
{
    let wrap = n + i;
    Wide {
        a: w[2 * i] + w[2 * wrap],
        b: w[2 * i + 1] + w[2 * wrap + 1],
    }
}

// A product of 2n coefficients, wrapped at n and reduced modulo q, to out.
fn reduce_wrapped(w: &[i64], n: usize, c: i32, d: i32, out: &mut [i32])
    requires n_bound { (n ≤ 1024) × (4 * n ≤ length w.now) × (length out.old ≡ 2 * n) × Modulus (value c d) }
    requires by_index { (k : ℕ) → k < 4 * n → nat_abs (get_or w.now k (pos 0)) ≤ 2 ^ 59 }
    requires by_index_2 { (i : ℕ) → i < n → Reducible (wrapped n (coefficient w.now) i) }
    ensures { out.new ≡ array n (λ i. mod_q (value c d) (wrapped n (coefficient w.now) i)) }
{
    for i in 0..n {
        store_remainder(out, i, wrapped_at(w, n, i), c, d);
    }
}

// Copies x to out by a loop: of `copy_from_slice` between two lent arrays the compiler makes a memmove, which nothing else that C links needs.
fn copy_numbers(x: &[i32], out: &mut [i32])
    requires { length x.now ≡ length out.old }
    ensures { out.new ≡ x.now }
{
    for (k, number) in out.iter_mut().enumerate() {
        *number = x[k];
    }
}

// x × y reduced modulo q, to x, with room for the product, which is formed since the operands are small and the room is large enough.
fn convolve_in(x: &mut [i32], y: &mut [i32], n: usize, c: i32, d: i32, w: &mut [i64])
    requires { Convolvable n (value c d) x.old y.old x.old × Factors n x.old y.old w.old }
    ensures { Convolved n (value c d) x.old y.old x.new }
{
    multiply_halved(x, y, n, w);
    reduce_wrapped(w, n, c, d, x);
}

// The same, with room of its own for the product: ROOM numbers, of which it needs 17N/2.
// It is a function of its own, so that this stack is taken only where it is called.
#[inline(never)]
fn convolve_in_room<const ROOM: usize>(x: &mut [i32], y: &mut [i32], n: usize, c: i32, d: i32)
    requires convolvable { (2 ≤ n) × Convolvable n (value c d) x.old y.old x.old }
    requires room { (17 * n ≤ 2 * ROOM) × (ROOM ≤ 2 ^ 16) }
    ensures { Convolved n (value c d) x.old y.old x.new }
{
    let mut w = [0i64; ROOM];
    convolve_in(x, y, n, c, d, &mut w);
}

// x × y reduced modulo q, to x, in the smallest room that N needs: 68 KiB at most, and less for smaller N, which is cleared sooner.
fn convolve_copies(x: &mut [i32], y: &mut [i32], n: usize, c: i32, d: i32)
    requires { (2 ≤ n) × Convolvable n (value c d) x.old y.old x.old }
    ensures { Convolved n (value c d) x.old y.old x.new }
{
    if n <= 32 {
        convolve_in_room::<272>(x, y, n, c, d);
    } else if n <= 128 {
        convolve_in_room::<1088>(x, y, n, c, d);
    } else if n <= 512 {
        convolve_in_room::<4352>(x, y, n, c, d);
    } else {
        convolve_in_room::<8704>(x, y, n, c, d);
    }
}

// x × y reduced modulo q, to out, by copies: that of x in out, where the result takes its place, and that of y in room of its own, LENGTH numbers.
fn convolve_with_copies<const LENGTH: usize>(
    x: &[i32],
    y: &[i32],
    n: usize,
    c: i32,
    d: i32,
    out: &mut [i32],
)
    requires convolvable { (2 ≤ n) × Convolvable n (value c d) x.now y.now out.old }
    requires length { (2 * n ≤ LENGTH) × (LENGTH ≤ 2 ^ 16) }
    ensures { Convolved n (value c d) x.now y.now out.new }
{
    let mut copy = [0i32; LENGTH];
    copy[..y.len()].copy_from_slice(y);
    copy_numbers(x, out);
    convolve_copies(out, &mut copy[..y.len()], n, c, d);
}

// x × y reduced modulo q = (c, d), to out, by halving. A small N has less room to clear.
pub(crate) fn convolve(x: &[i32], y: &[i32], n: usize, c: i32, d: i32, out: &mut [i32])
    requires { (2 ≤ n) × Convolvable n (value c d) x.now y.now out.old }
    ensures { Convolved n (value c d) x.now y.now out.new }
{
    if n <= 128 {
        convolve_with_copies::<256>(x, y, n, c, d, out);
    } else {
        convolve_with_copies::<2048>(x, y, n, c, d, out);
    }
}
