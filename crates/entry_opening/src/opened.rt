// An entry's part is read and opened where the parameters have passed.
// The array that its numbers are read to gives its room to the message's polynomial, so that no more stack is taken than by opening an array.
ghost use Rattle.std.specs.Prelude.{◌≡◌, ◌++◌, ◌*◌, ◌^◌, ◌≤◌, length};
ghost use Rattle.refusals.specs.Outcomes.{number, Gives, Passes};
ghost use Rattle.refusals.specs.Numbers.{answered};
ghost use Rattle.parameters.specs.Sets.{set_of, parameter_checks};
ghost use Rattle.polynomials.specs.Polynomials.{coefficient};
ghost use Rattle.packing.specs.Messages.{unpacked};
ghost use Rattle.etru.specs.Scheme.{opened};
ghost use Rattle.etru.specs.Calls.{opening, opening_checks};
ghost use Rattle.files.specs.Files.{numbers_from};
ghost use Rattle.entry_opening.specs.Calls.{opening_entry};

use parameters::{CheckedParameters, Parameters};
use refusals::Refusal;
use stored_numbers::read_numbers;

// Opens e, which is overwritten. The first product goes to a lent array.
fn open_over(
    p: Parameters,
    f: &[i32],
    f2: &[i32],
    e: &mut [i32],
    product: &mut [i32],
    message: &mut [u8],
)
    requires passes { Passes (parameter_checks (set_of p) ++ opening_checks (set_of p) f.now f2.now e.old (length message.old)) }
    requires product_len { length product.old ≡ 2 * p.n }
    ensures { message.new ≡ unpacked p.n (opened (set_of p) (coefficient f.now) (coefficient f2.now) (coefficient e.old)) }
{
    products::multiply_units_modulo_q(p.n, p.c, p.d, f, e, product);
    products::multiply_units_modulo_2(p.n, f2, product, e);
    // Nothing is refused: the lengths have passed, and the product is reduced modulo 2.
    let _ = message_unpacking::unpack(p.n, e, message);
}

// Reads the part's numbers to x, and opens them if they are not refused.
fn open_part(
    p: Parameters,
    f: &[i32],
    f2: &[i32],
    part: &[u8],
    x: &mut [i32],
    product: &mut [i32],
    message: &mut [u8],
) -> Result<(), Refusal>
    requires { (length part.now ≡ 4 * p.n) × (length x.old ≡ 2 * p.n) × (length product.old ≡ 2 * p.n) }
    ensures { Gives (opening (set_of p) f.now f2.now (numbers_from part.now) (length message.old))
        (number (answered result)) message.old message.new }
{
    read_numbers(part, x);
    unsealing_refusals::opening_refusal(p, f, f2, x, message.len())?;
    open_over(p, f, f2, x, product, message);
    Ok(())
}

// The same, with room of its own for both arrays, ROOM numbers each.
fn open_in<const ROOM: usize>(
    p: Parameters,
    f: &[i32],
    f2: &[i32],
    part: &[u8],
    message: &mut [u8],
) -> Result<(), Refusal>
    requires room { (2 * p.n ≤ ROOM) × (ROOM ≤ 2 ^ 16) }
    requires length { length part.now ≡ 4 * p.n }
    ensures { Gives (opening (set_of p) f.now f2.now (numbers_from part.now) (length message.old))
        (number (answered result)) message.old message.new }
{
    let width = 2 * (p.n as usize);
    let mut x = [0i32; ROOM];
    let mut product = [0i32; ROOM];
    open_part(
        p,
        f,
        f2,
        part,
        &mut x[..width],
        &mut product[..width],
        message,
    )
}

// 7 if the part has not 4N bytes. Where N is small, 2 KiB are cleared, and not the 16 KiB that a large one needs.
pub(crate) fn open_checked(
    p: CheckedParameters,
    f: &[i32],
    f2: &[i32],
    part: &[u8],
    message: &mut [u8],
) -> Result<(), Refusal>
    ensures { Gives (opening_entry (set_of p.parameters) f.now f2.now part.now (length message.old))
        (number (answered result)) message.old message.new }
{
    if part.len() != 4 * (p.parameters.n as usize) {
        return Err(Refusal::WrongLength);
    }
    if p.parameters.n <= 128 {
        return open_in::<256>(p.parameters, f, f2, part, message);
    }
    open_in::<2048>(p.parameters, f, f2, part, message)
}
