// Sealing a short message: its bits, a 1 and zeros up to 2N to the array e, with a public key and an ephemeral.
// It ends with `Ok`, or with the first refusal that applies, and then its output is as it came.
// At every N it takes less than 12 KiB of stack.

#![tactic(auto)]

ghost use Rattle.std.specs.Prelude.{◌≡◌, ◌++◌, ◌+◌, ◌*◌, ◌≤◌, length};
ghost use Rattle.refusals.specs.Outcomes.{number, outcome, Gives};
ghost use Rattle.refusals.specs.Numbers.{answered};
ghost use Rattle.parameters.specs.Sets.{set_of, parameter_checks};
ghost use Rattle.packing.specs.Messages.{message_bytes};
ghost use Rattle.short_scheme.specs.Calls.{short_sealing_checks, short_sealing};

use array_sets::{ArraySet, check_array};
use parameters::{CheckedParameters, Parameters};
use refusals::Refusal;
use short_messages::too_long;

// The refusals, in their order: those of the parameter set, 7 for all lengths but the message's, h, φ, and 26 for the message.
fn short_sealing_refusal(
    p: Parameters,
    h: &[i32],
    phi: &[i32],
    message: usize,
    room: usize,
) -> Result<(), Refusal>
    ensures { answered result ≡ outcome (parameter_checks (set_of p) ++ short_sealing_checks (set_of p) h.now phi.now message room) tt }
{
    p.check()?;
    Refusal::WrongLength.when(!arrays::three_full(p.n, h.len(), phi.len(), room))?;
    check_array(p, ArraySet::ReducedModuloQ, h)?;
    check_array(p, ArraySet::Phi, phi)?;
    Refusal::ShortMessageTooLong.when(too_long(p.n, message))
}

// The 2N bits go to lent bytes, and are sealed as a message.
fn seal_bits(
    p: Parameters,
    h: &[i32],
    phi: &[i32],
    message: &[u8],
    bits: &mut [u8],
    e: &mut [i32],
) -> Result<(), Refusal>
    requires { (8 * length message.now + 1 ≤ 2 * p.n) × (length bits.old ≡ message_bytes p.n) }
    ensures { Gives (short_sealing (set_of p) h.now phi.now message.now (length e.old))
        (number (answered result)) e.old e.new }
{
    short_messages::pad(message, bits);
    sealing::seal(p, h, phi, bits, e)
}

// A message that is too long meets the first refusal due, 26 at the latest. The bits of another are sealed, with room for those of every N.
fn seal_checked(
    p: CheckedParameters,
    h: &[i32],
    phi: &[i32],
    message: &[u8],
    e: &mut [i32],
) -> Result<(), Refusal>
    ensures { Gives (short_sealing (set_of p.parameters) h.now phi.now message.now (length e.old))
        (number (answered result)) e.old e.new }
{
    let n = p.parameters.n;
    if too_long(n, message.len()) {
        return short_sealing_refusal(p.parameters, h, phi, message.len(), e.len());
    }
    let k = packing::message_bytes(n);
    let mut bits = [0u8; 256];
    seal_bits(p.parameters, h, phi, message, &mut bits[..k], e)
}

// Seals a short message with the public key h and the ephemeral φ, to e.
pub fn seal_short(
    p: Parameters,
    h: &[i32],
    phi: &[i32],
    message: &[u8],
    e: &mut [i32],
) -> Result<(), Refusal>
    ensures { Gives (short_sealing (set_of p) h.now phi.now message.now (length e.old))
        (number (answered result)) e.old e.new }
{
    let p = p.checked()?;
    seal_checked(p, h, phi, message, e)
}
