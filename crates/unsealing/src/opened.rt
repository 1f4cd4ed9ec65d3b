// F2 × (f × e reduced modulo q) reduced modulo 2, as message bytes, where opening's checks have passed.
ghost use Rattle.std.specs.Prelude.{◌≡◌, ◌++◌, ◌*◌, ◌^◌, ◌≤◌, length};
ghost use Rattle.refusals.specs.Outcomes.{Passes};
ghost use Rattle.parameters.specs.Sets.{set_of, parameter_checks};
ghost use Rattle.polynomials.specs.Polynomials.{coefficient};
ghost use Rattle.packing.specs.Messages.{unpacked};
ghost use Rattle.etru.specs.Scheme.{opened};
ghost use Rattle.etru.specs.Calls.{opening_checks};

use parameters::Parameters;

// The two products go to lent arrays.
fn open_with(
    p: Parameters,
    f: &[i32],
    f2: &[i32],
    e: &[i32],
    product: &mut [i32],
    m: &mut [i32],
    message: &mut [u8],
)
    requires passes { Passes (parameter_checks (set_of p) ++ opening_checks (set_of p) f.now f2.now e.now (length message.old)) }
    requires product_len { (length product.old ≡ 2 * p.n) × (length m.old ≡ 2 * p.n) }
    ensures { message.new ≡ unpacked p.n (opened (set_of p) (coefficient f.now) (coefficient f2.now) (coefficient e.now)) }
{
    products::multiply_units_modulo_q(p.n, p.c, p.d, f, e, product);
    products::multiply_units_modulo_2(p.n, f2, product, m);
    // Nothing is refused: the lengths have passed, and the product is reduced modulo 2.
    let _ = message_unpacking::unpack(p.n, m, message);
}

// The same, with room of its own for both products, ROOM numbers each.
fn open_in<const ROOM: usize>(p: Parameters, f: &[i32], f2: &[i32], e: &[i32], message: &mut [u8])
    requires room { (2 * p.n ≤ ROOM) × (ROOM ≤ 2 ^ 16) }
    requires passes { Passes (parameter_checks (set_of p) ++ opening_checks (set_of p) f.now f2.now e.now (length message.old)) }
    ensures { message.new ≡ unpacked p.n (opened (set_of p) (coefficient f.now) (coefficient f2.now) (coefficient e.now)) }
{
    let width = 2 * (p.n as usize);
    let mut product = [0i32; ROOM];
    let mut m = [0i32; ROOM];
    open_with(p, f, f2, e, &mut product[..width], &mut m[..width], message);
}

// Where N is small, 2 KiB are cleared, and not the 16 KiB that a large one needs.
pub(crate) fn open_into(p: Parameters, f: &[i32], f2: &[i32], e: &[i32], message: &mut [u8])
    requires { Passes (parameter_checks (set_of p) ++ opening_checks (set_of p) f.now f2.now e.now (length message.old)) }
    ensures { message.new ≡ unpacked p.n (opened (set_of p) (coefficient f.now) (coefficient f2.now) (coefficient e.now)) }
{
    if p.n <= 128 {
        open_in::<256>(p, f, f2, e, message);
    } else {
        open_in::<2048>(p, f, f2, e, message);
    }
}
