// Files read: the arrays of a file of a wanted kind.
// It reads lent bytes, opens no file of the system, and does not test whether F2 and Fq are inverses.
// The call ends with a result, or with document 01's first refusal that applies, and then its output is as it came.
// At every N it takes less than 10 KiB of stack.

#![tactic(auto)]

ghost use Rattle.std.specs.Prelude.{length};
ghost use Rattle.refusals.specs.Outcomes.{number, Gives};
ghost use Rattle.refusals.specs.Numbers.{answered};
ghost use Rattle.files.specs.Calls.{reading};

mod contents;
mod reading;

use heads::kinds::Kind;
use parameters::CheckedParameters;
use refusals::Refusal;

// The arrays of a file of the wanted kind, one after another in stored order, to numbers.
// The kind is a number, as C hands it over: one that is no kind has refusal 19, after those that come before it.
pub fn read(kind: u32, file: &[u8], numbers: &mut [i32]) -> Result<(), Refusal>
    ensures { Gives (reading kind file.now (length numbers.old)) (number (answered result)) numbers.old numbers.new }
{
    let p = head_reading::read_head(kind, file)?;
    // A head is read of a kind alone.
    let kind = Kind::try_from(kind)?;
    // The parameters of a head that is read have passed.
    reading::read_content(kind, CheckedParameters { parameters: p }, file, numbers)
}
