// Files written: a file of a kind, from a parameter set and the numbers of its arrays.
// It writes to lent bytes, opens no file of the system, and does not test whether F2 and Fq are inverses.
// The call ends with a result, or with document 01's first refusal that applies, and then its output is as it came.
// At every N it takes less than 1 KiB of stack.

#![tactic(auto)]

ghost use Rattle.std.specs.Prelude.{length};
ghost use Rattle.refusals.specs.Outcomes.{number, Gives};
ghost use Rattle.refusals.specs.Numbers.{answered};
ghost use Rattle.parameters.specs.Sets.{set_of};
ghost use Rattle.files.specs.Calls.{writing};

mod contents;
mod writing;

use heads::kinds::Kind;
use parameters::Parameters;
use refusals::Refusal;

// A file of this kind, to file. The numbers are its arrays, one after another in stored order.
// The kind is a number, as C hands it over: one that is no kind has refusal 19, after those that come before it.
pub fn write(kind: u32, p: Parameters, numbers: &[i32], file: &mut [u8]) -> Result<(), Refusal>
    ensures { Gives (writing kind (set_of p) numbers.now (length file.old)) (number (answered result)) file.old file.new }
{
    let kind = Kind::try_from(kind)?;
    let p = p.checked()?;
    writing::write_content(kind, p, numbers, file)
}
