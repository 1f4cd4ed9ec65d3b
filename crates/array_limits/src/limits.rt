// The size of an array's numbers. Each loop looks at every number, whatever those before it were, so that the compiled loop takes several at once.
ghost use Rattle.std.specs.Prelude.{◌≡◌, not, ◌+◌, ◌*◌, ◌^◌, ◌<◌, ◌≤◌, ltb, pos, nat_abs, ◌-ℤ◌, length, ◌<ℤ◌};
ghost use Rattle.polynomials.specs.Polynomials.{coefficient, all};
ghost use Rattle.arrays.specs.Arrays.{AllWithin, all_within};

fn is_beyond(z: i32, limit: i32) -> bool
    requires { (pos 0 <ℤ limit) × (nat_abs limit ≤ 2 ^ 15) }
    ensures { result ≡ ltb (nat_abs limit) (nat_abs z) }
{
    z < -limit || limit < z
}

// Whether each number is at most `limit` in size.
pub(crate) fn numbers_within(x: &[i32], limit: i32) -> bool
    requires { (pos 0 <ℤ limit) × (nat_abs limit ≤ 2 ^ 15) }
    ensures { result ≡ all_within (nat_abs limit) x.now }
{
    let mut within = true;
    for z in x {
        within &= !is_beyond(*z, limit);
    }
    within
}

// Whether the parts of coefficient i differ by more than 1.
fn parts_apart_at(x: &[i32], i: usize) -> bool
    requires { (i < 1024) × (2 * i + 1 < length x.now) × AllWithin 1 x.now }
    ensures { result ≡ ltb 1 (nat_abs ((coefficient x.now i).a -ℤ (coefficient x.now i).b)) }
{
    is_beyond(x[2 * i] - x[2 * i + 1], 1)
}

// Whether the parts of each coefficient differ by at most 1.
pub(crate) fn parts_together(x: &[i32], n: usize) -> bool
    requires { (n ≤ 1024) × (length x.now ≡ 2 * n) × AllWithin 1 x.now }
    ensures { result ≡ all n (λ i. not (ltb 1 (nat_abs ((coefficient x.now i).a -ℤ (coefficient x.now i).b)))) }
{
    let mut together = true;
    for i in 0..n {
        together &= !parts_apart_at(x, i);
    }
    together
}
