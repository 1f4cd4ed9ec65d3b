// e = 2φ × h + m reduced modulo q, where sealing's checks have passed.
ghost use Rattle.std.specs.Prelude.{◌≡◌, ◌++◌, ◌*◌, ◌<◌, length};
ghost use Rattle.refusals.specs.Outcomes.{Passes};
ghost use Rattle.eisenstein.specs.Values.{value, ◌+ω◌};
ghost use Rattle.eisenstein.specs.Reduction.{mod_q};
ghost use Rattle.parameters.specs.Sets.{set_of, parameter_checks};
ghost use Rattle.polynomials.specs.Polynomials.{coefficient, array};
ghost use Rattle.packing.specs.Messages.{packed};
ghost use Rattle.etru.specs.Scheme.{sealed};
ghost use Rattle.etru.specs.Calls.{sealing_checks};

use eisenstein::Pair;
use parameters::{CheckedParameters, Parameters};

// Coefficient i of 2·product + m, reduced modulo q.
fn sealed_at(p: CheckedParameters, product: &[i32], message: &[u8], i: usize) -> Pair
    requires { i < p.parameters.n }
    ensures { value result.a result.b ≡ mod_q (set_of p.parameters).q (coefficient product.now i +ω coefficient product.now i +ω packed message.now i) }
{
    let pa = arrays::at(product, 2 * i);
    let pb = arrays::at(product, 2 * i + 1);
    let m = packing::pair_of(message, i as u32);
    let a = pa + pa + i64::from(m.a);
    let b = pb + pb + i64::from(m.b);
    remainders::remainder_q(a, b, p.parameters.c, p.parameters.d)
}

// Turns the product φ × h into what is sealed.
fn add_message(p: CheckedParameters, message: &[u8], e: &mut [i32])
    requires { length e.old ≡ 2 * p.parameters.n }
    ensures { e.new ≡ array p.parameters.n (λ i. mod_q (set_of p.parameters).q (coefficient e.old i +ω coefficient e.old i +ω packed message.now i)) }
{
    for i in 0..p.parameters.n as usize {
        let r = sealed_at(p, e, message, i);
        e[2 * i] = r.a;
        e[2 * i + 1] = r.b;
    }
}

pub(crate) fn seal_into(p: Parameters, h: &[i32], phi: &[i32], message: &[u8], e: &mut [i32])
    requires { Passes (parameter_checks (set_of p) ++ sealing_checks (set_of p) h.now phi.now message.now (length e.old)) }
    ensures { e.new ≡ array p.n (sealed (set_of p) (coefficient h.now) (coefficient phi.now) (packed message.now)) }
{
    unit_products::multiply_units(p.n, phi, h, e);
    // The checks that passed begin with those of p.
    add_message(CheckedParameters { parameters: p }, message, e);
}
