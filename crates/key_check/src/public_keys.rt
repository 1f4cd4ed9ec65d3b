// h = Fq × g reduced modulo q, where the key check has passed.
ghost use Rattle.std.specs.Prelude.{◌≡◌, ◌++◌, length};
ghost use Rattle.refusals.specs.Outcomes.{Passes};
ghost use Rattle.parameters.specs.Sets.{set_of, parameter_checks};
ghost use Rattle.polynomials.specs.Polynomials.{coefficient, array};
ghost use Rattle.etru.specs.Scheme.{public_key};
ghost use Rattle.etru.specs.Calls.{key_checks};

use parameters::Parameters;

pub(crate) fn write_public_key(
    p: Parameters,
    f: &[i32],
    f2: &[i32],
    fq: &[i32],
    g: &[i32],
    h: &mut [i32],
)
    requires { Passes (parameter_checks (set_of p) ++ key_checks (set_of p) f.now f2.now fq.now g.now (length h.old)) }
    ensures { h.new ≡ array p.n (public_key (set_of p) (coefficient fq.now) (coefficient g.now)) }
{
    products::multiply_units_modulo_q(p.n, p.c, p.d, g, fq, h);
}
