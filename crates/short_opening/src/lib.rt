// Opening a sealed array as a short message: its bytes and its length.
// It ends with the length, or with the first refusal that applies. Bytes of its output past that length, and all of them after a refusal, are as they came.
// At every N it takes less than 28 KiB of stack.

#![tactic(auto)]

ghost use Rattle.std.specs.Prelude.{◌≡◌, length};
ghost use Rattle.parameters.specs.Sets.{set_of};
ghost use Rattle.packing.specs.Messages.{message_bytes};
ghost use Rattle.opened_arrays.specs.Answers.{GivesMessage};
ghost use Rattle.short_messages.specs.ShortMessages.{longest_short};
ghost use Rattle.short_scheme.specs.Calls.{short_opening};

mod reading;

use parameters::{CheckedParameters, Parameters};
use refusals::Refusal;

// The 2N bits go to lent bytes, and are read as a short message.
fn open_bits(
    p: Parameters,
    f: &[i32],
    f2: &[i32],
    e: &[i32],
    bits: &mut [u8],
    message: &mut [u8],
) -> Result<usize, Refusal>
    requires { (length bits.old ≡ message_bytes p.n) × (length message.old ≡ longest_short p.n) }
    ensures { GivesMessage (short_opening (set_of p) f.now f2.now e.now (length message.old)) result message.old message.new }
{
    unsealing::open(p, f, f2, e, bits)?;
    reading::read_short(p.n, bits, message)
}

// With room for the bits of every N.
fn open_checked(
    p: CheckedParameters,
    f: &[i32],
    f2: &[i32],
    e: &[i32],
    message: &mut [u8],
) -> Result<usize, Refusal>
    requires { length message.old ≡ longest_short p.parameters.n }
    ensures { GivesMessage (short_opening (set_of p.parameters) f.now f2.now e.now (length message.old)) result message.old message.new }
{
    let k = packing::message_bytes(p.parameters.n);
    let mut bits = [0u8; 256];
    open_bits(p.parameters, f, f2, e, &mut bits[..k], message)
}

// Opens the sealed array e with the private key f and F2. The short message goes to the front of message, which has as many bytes as the longest one.
pub fn open_short(
    p: Parameters,
    f: &[i32],
    f2: &[i32],
    e: &[i32],
    message: &mut [u8],
) -> Result<usize, Refusal>
    ensures { GivesMessage (short_opening (set_of p) f.now f2.now e.now (length message.old)) result message.old message.new }
{
    let p = p.checked()?;
    let right = message.len() == short_messages::longest_short(p.parameters.n);
    Refusal::WrongLength.when(!right)?;
    open_checked(p, f, f2, e, message)
}
