// The call of unpacking: a polynomial to the bytes of the message that it stands for; and that both calls undo each other. It opens nothing.
// It ends with `Ok`, or with document 01's first refusal that applies, and then its output is as it came.

#![tactic(auto)]

ghost use Rattle.std.specs.Prelude.{◌≡◌, length};
ghost use Rattle.refusals.specs.Outcomes.{outcome, number, Gives};
ghost use Rattle.refusals.specs.Numbers.{answered};
ghost use Rattle.message_unpacking.specs.Calls.{unpacking_checks, unpacking};

mod messages;

use packing::lengths::message_and_array_full;
use parameters::Parameters;
use refusals::Refusal;

// The refusals of unpacking, in document 01's order.
fn unpacking_refusal(n: u32, m: &[i32], room: usize) -> Result<(), Refusal>
    ensures { answered result ≡ outcome (unpacking_checks n m.now room) tt }
{
    if parameters::out_of_range(n, Parameters::MIN_N, Parameters::MAX_N) {
        return Err(Refusal::CoefficientCountOutOfRange);
    }
    if !message_and_array_full(n, room, m.len()) {
        return Err(Refusal::WrongLength);
    }
    if !set_tests::reduced_modulo_2(m, n) {
        return Err(Refusal::NotReducedModulo2);
    }
    Ok(())
}

// The message that a polynomial of N coefficients stands for, to message.
pub fn unpack(n: u32, m: &[i32], message: &mut [u8]) -> Result<(), Refusal>
    ensures { Gives (unpacking n m.now (length message.old)) (number (answered result)) message.old message.new }
{
    unpacking_refusal(n, m, message.len())?;
    messages::unpack_into(n as usize, m, message);
    Ok(())
}
