// Unsealing: document 01's call of opening, the array e to its message.
// It reads no file, and does not ask again whether F2 is the inverse of f.
// It ends with `Ok`, or with document 01's first refusal that applies, and then its output is as it came.
// At every N `open` takes less than 28 KiB of stack.
// The arrays of a key are handed on one by one, as C lends them: a struct of references would be made for the call and taken apart in it.

#![tactic(auto)]

ghost use Rattle.std.specs.Prelude.{length};
ghost use Rattle.refusals.specs.Outcomes.{number, Gives};
ghost use Rattle.refusals.specs.Numbers.{answered};
ghost use Rattle.parameters.specs.Sets.{set_of};
ghost use Rattle.etru.specs.Calls.{opening};

mod opened;

use parameters::Parameters;
use refusals::Refusal;

// Opens the sealed array e with the private key f and F2. The message goes to message.
pub fn open(
    p: Parameters,
    f: &[i32],
    f2: &[i32],
    e: &[i32],
    message: &mut [u8],
) -> Result<(), Refusal>
    ensures { Gives (opening (set_of p) f.now f2.now e.now (length message.old))
        (number (answered result)) message.old message.new }
{
    unsealing_refusals::opening_refusal(p, f, f2, e, message.len())?;
    opened::open_into(p, f, f2, e, message);
    Ok(())
}
