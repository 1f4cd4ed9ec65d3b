// The short message in the 2N bits of a message: the bytes before their last 1.
ghost use Rattle.std.specs.Prelude.{◌≡◌, [], ◌∷◌, ◌++◌, ◌/◌, ◌≤◌, length, take, drop};
ghost use Rattle.refusals.specs.Outcomes.{outcome, ◌if◌};
ghost use Rattle.packing.specs.Messages.{message_bytes};
ghost use Rattle.opened_arrays.specs.Answers.{GivesMessage};
ghost use Rattle.short_messages.specs.ShortMessages.{longest_short, ends_no_short, not_short, bytes_before, short_of};

use refusals::Refusal;

// The bytes before the 1 at bit k, to the front of message, if a byte begins there.
fn read_before(k: usize, bits: &[u8], message: &mut [u8]) -> Result<usize, Refusal>
    requires { (k / 8 ≤ length bits.now) × (k / 8 ≤ length message.old) }
    ensures { GivesMessage (outcome (27 if ends_no_short (Some k) ∷ []) (bytes_before (Some k) bits.now)) result message.old message.new }
{
    if k % 8 != 0 {
        return Err(Refusal::NotAShortMessage);
    }
    let count = k / 8;
    message[..count].copy_from_slice(&bits[..count]);
    Ok(count)
}

// "27 ... if there is no 1 bit or the last one stands at a bit position ... that is not a multiple of 8"
pub(crate) fn read_short(n: u32, bits: &[u8], message: &mut [u8]) -> Result<usize, Refusal>
    requires { (length bits.now ≡ message_bytes n) × (length message.old ≡ longest_short n) }
    ensures { GivesMessage (outcome (27 if not_short n bits.now ∷ []) (short_of n bits.now)) result message.old message.new }
{
    match short_messages::last_one(n, bits) {
        Some(k) => read_before(k, bits, message),
        None => Err(Refusal::NotAShortMessage),
    }
}
