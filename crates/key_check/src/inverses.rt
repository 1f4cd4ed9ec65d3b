// Whether F2 and Fq are inverses of f, modulo 2 and modulo q.
ghost use Rattle.std.specs.Prelude.{◌≡◌, ◌*◌, ◌^◌, ◌<◌, ◌≤◌, pos, nat_abs, length};
ghost use Rattle.refusals.specs.Outcomes.{outcome};
ghost use Rattle.refusals.specs.Numbers.{answered};
ghost use Rattle.eisenstein.specs.Values.{value, same};
ghost use Rattle.parameters.specs.Sets.{set_of};
ghost use Rattle.polynomials.specs.Polynomials.{coefficient, one, all};
ghost use Rattle.etru.specs.Calls.{inverse_checks};
ghost use Rattle.key_check.specs.Conditions.{KeyArrays};

use parameters::Parameters;
use refusals::Refusal;

// Whether coefficient i of x is that of 1.
fn is_one_at(x: &[i32], i: usize) -> bool
    requires { i < 2 ^ 32 }
    ensures { result ≡ same (coefficient x.now i) (one i) }
{
    arrays::coefficient_is(x, i as u32, i64::from(i == 0), 0)
}

// Whether x is 1.
fn is_one(x: &[i32], n: usize) -> bool
    requires { n < 2 ^ 32 }
    ensures { result ≡ all n (λ i. same (coefficient x.now i) (one i)) }
{
    (0..n).all(|i| is_one_at(x, i))
}

// The two products, each reduced, go to a lent array.
fn inverse_refusal_with(
    p: Parameters,
    f: &[i32],
    f2: &[i32],
    fq: &[i32],
    product: &mut [i32],
) -> Result<(), Refusal>
    requires { KeyArrays (set_of p) f.now f2.now fq.now × (length product.old ≡ 2 * p.n) }
    ensures { answered result ≡ outcome (inverse_checks (set_of p) f.now f2.now fq.now) tt }
{
    products::multiply_units_modulo_2(p.n, f, f2, product);
    if !is_one(product, p.n as usize) {
        return Err(Refusal::NotInverseModulo2);
    }
    products::multiply_units_modulo_q(p.n, p.c, p.d, f, fq, product);
    if !is_one(product, p.n as usize) {
        return Err(Refusal::NotInverseModuloQ);
    }
    Ok(())
}

// Refusals 13 and 14. The product takes 8 KiB of stack.
pub(crate) fn inverse_refusal(
    p: Parameters,
    f: &[i32],
    f2: &[i32],
    fq: &[i32],
) -> Result<(), Refusal>
    requires { KeyArrays (set_of p) f.now f2.now fq.now }
    ensures { answered result ≡ outcome (inverse_checks (set_of p) f.now f2.now fq.now) tt }
{
    let mut product = [0i32; 2048];
    inverse_refusal_with(p, f, f2, fq, &mut product[..2 * (p.n as usize)])
}
