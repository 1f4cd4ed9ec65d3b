// The key check of a private file's numbers: f, F2, Fq and g, one after another as they are stored.
// It reads no file, and gives the public key to nobody.

#![tactic(auto)]

ghost use Rattle.std.specs.Prelude.{◌≡◌, ◌*◌, ◌≤◌, length};
ghost use Rattle.refusals.specs.Outcomes.{number};
ghost use Rattle.refusals.specs.Numbers.{answered};
ghost use Rattle.parameters.specs.Sets.{set_of};
ghost use Rattle.stored_keys.specs.Keys.{stored_key_check, key_check_in};

use parameters::{CheckedParameters, Parameters};
use refusals::Refusal;

// The key check with Fq and g one after another. The public key that it forms goes to a lent array.
fn check_parts(
    p: Parameters,
    f: &[i32],
    f2: &[i32],
    rest: &[i32],
    h: &mut [i32],
) -> Result<(), Refusal>
    requires { length rest.now ≡ 4 * p.n }
    ensures { number (answered result) ≡ number (key_check_in (set_of p) f.now f2.now rest.now (length h.old)) }
{
    let fq_end = 2 * (p.n as usize);
    let g_end = 2 * fq_end;
    let fq = &rest[..fq_end];
    let g = &rest[fq_end..g_end];
    key_check::check_key(p, f, f2, fq, g, h)
}

fn key_refusal_in(p: Parameters, numbers: &[i32], h: &mut [i32]) -> Result<(), Refusal>
    requires { (8 * p.n ≤ length numbers.now) × (length h.old ≡ 2 * p.n) }
    ensures { number (answered result) ≡ number (stored_key_check (set_of p) numbers.now) }
{
    let f_end = 2 * (p.n as usize);
    let f2_end = 2 * f_end;
    let g_end = 4 * f_end;
    let f = &numbers[..f_end];
    let f2 = &numbers[f_end..f2_end];
    check_parts(p, f, f2, &numbers[f2_end..g_end], h)
}

// What is checked is all that is wanted: the public key is formed beside it, in 8 KiB of stack.
fn accepted_key_refusal(p: CheckedParameters, numbers: &[i32]) -> Result<(), Refusal>
    ensures { number (answered result) ≡ number (stored_key_check (set_of p.parameters) numbers.now) }
{
    let k = 2 * (p.parameters.n as usize);
    if numbers.len() < 4 * k {
        return Err(Refusal::WrongLength);
    }
    let mut h = [0i32; 2048];
    key_refusal_in(p.parameters, numbers, &mut h[..k])
}

// The first refusal of the key check. Numbers beyond the four arrays play no part.
pub fn key_refusal(p: Parameters, numbers: &[i32]) -> Result<(), Refusal>
    ensures { number (answered result) ≡ number (stored_key_check (set_of p) numbers.now) }
{
    let p = p.checked()?;
    accepted_key_refusal(p, numbers)
}
