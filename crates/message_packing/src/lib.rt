// The call of packing: a message's bytes to the polynomial that they stand for. It seals nothing.
// It ends with `Ok`, or with document 01's first refusal that applies, and then its output is as it came.

#![tactic(auto)]

ghost use Rattle.std.specs.Prelude.{◌≡◌, ◌*◌, ◌≤◌, length};
ghost use Rattle.refusals.specs.Outcomes.{outcome, number, Gives};
ghost use Rattle.refusals.specs.Numbers.{answered};
ghost use Rattle.polynomials.specs.Polynomials.{array};
ghost use Rattle.packing.specs.Messages.{packed};
ghost use Rattle.message_packing.specs.Calls.{packing_checks, packing};

use packing::lengths::message_and_array_full;
use packing::{pair_of, spare_bit_set};
use parameters::Parameters;
use refusals::Refusal;

// The refusals of packing, in document 01's order.
fn packing_refusal(n: u32, message: &[u8], room: usize) -> Result<(), Refusal>
    ensures { answered result ≡ outcome (packing_checks n message.now room) tt }
{
    if parameters::out_of_range(n, Parameters::MIN_N, Parameters::MAX_N) {
        return Err(Refusal::CoefficientCountOutOfRange);
    }
    if !message_and_array_full(n, message.len(), room) {
        return Err(Refusal::WrongLength);
    }
    if spare_bit_set(n, message) {
        return Err(Refusal::SpareBitSet);
    }
    Ok(())
}

fn pack_into(n: usize, message: &[u8], m: &mut [i32])
    requires { (n ≤ 1024) × (length m.old ≡ 2 * n) }
    ensures { m.new ≡ array n (packed message.now) }
{
    for i in 0..n {
        let v = pair_of(message, i as u32);
        m[2 * i] = v.a;
        m[2 * i + 1] = v.b;
    }
}

// The polynomial of N coefficients that a message stands for, to m.
pub fn pack(n: u32, message: &[u8], m: &mut [i32]) -> Result<(), Refusal>
    ensures { Gives (packing n message.now (length m.old)) (number (answered result)) m.old m.new }
{
    packing_refusal(n, message, m.len())?;
    pack_into(n as usize, message, m);
    Ok(())
}
