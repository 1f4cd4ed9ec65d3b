// The call that opens an entry of a bundle: its part, 4N of the bundle's bytes, to its message.
// It reads no bundle. It ends with `Ok`, or with the first refusal that applies, and then its output is as it came.
// At every N it takes less than 28 KiB of stack.

#![tactic(auto)]

ghost use Rattle.std.specs.Prelude.{length};
ghost use Rattle.refusals.specs.Outcomes.{number, Gives};
ghost use Rattle.refusals.specs.Numbers.{answered};
ghost use Rattle.parameters.specs.Sets.{set_of};
ghost use Rattle.entry_opening.specs.Calls.{opening_entry};

mod opened;

use parameters::Parameters;
use refusals::Refusal;

// Opens the sealed array that part is, with the private key f and F2. The message goes to message.
pub fn open_entry(
    p: Parameters,
    f: &[i32],
    f2: &[i32],
    part: &[u8],
    message: &mut [u8],
) -> Result<(), Refusal>
    ensures { Gives (opening_entry (set_of p) f.now f2.now part.now (length message.old))
        (number (answered result)) message.old message.new }
{
    let p = p.checked()?;
    opened::open_checked(p, f, f2, part, message)
}
