// Sealing: a message to the array e, with a public key and an ephemeral.
// It draws no ephemeral and writes no file.
// It ends with `Ok`, or with document 01's first refusal that applies, and then its output is as it came.
// At every N `seal` takes less than 12 KiB of stack.

#![tactic(auto)]

ghost use Rattle.std.specs.Prelude.{length};
ghost use Rattle.refusals.specs.Outcomes.{number, Gives};
ghost use Rattle.refusals.specs.Numbers.{answered};
ghost use Rattle.parameters.specs.Sets.{set_of};
ghost use Rattle.etru.specs.Calls.{sealing};

mod sealed;

use parameters::Parameters;
use refusals::Refusal;

// Seals a message with the public key h and the ephemeral φ, to e.
pub fn seal(
    p: Parameters,
    h: &[i32],
    phi: &[i32],
    message: &[u8],
    e: &mut [i32],
) -> Result<(), Refusal>
    ensures { Gives (sealing (set_of p) h.now phi.now message.now (length e.old))
        (number (answered result)) e.old e.new }
{
    sealing_refusals::sealing_refusal(p, h, phi, message, e.len())?;
    sealed::seal_into(p, h, phi, message, e);
    Ok(())
}
