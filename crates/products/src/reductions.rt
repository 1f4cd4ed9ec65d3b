// The reduction of a whole array.
ghost use Rattle.std.specs.Prelude.{◌≡◌, ◌*◌, ◌≤◌, length};
ghost use Rattle.eisenstein.specs.Values.{ℤ[ω]};
ghost use Rattle.polynomials.specs.Polynomials.{coefficient, array};
ghost use Rattle.products.specs.Products.{Computes};

use eisenstein::Pair;

// Replaces each coefficient by its remainder, which is what the function given computes of its two parts.
pub(crate) fn reduce_all<F: Fn(i64, i64) -> Pair>(x: &mut [i32], n: usize, remainder: F)
    requires room { (n ≤ 1024) × (length x.old ≡ 2 * n) }
    requires callable { F.IsAlwaysCallable remainder }
    ensures { (m : ℤ[ω] → ℤ[ω]) → Computes (F.post remainder) m → x.new ≡ array n (λ i. m (coefficient x.old i)) }
{
    for i in 0..n {
        let r = remainder(i64::from(x[2 * i]), i64::from(x[2 * i + 1]));
        x[2 * i] = r.a;
        x[2 * i + 1] = r.b;
    }
}
