// The call that writes a head. It works on lent bytes, and leaves what stands behind a head as it came.
// It ends with the head written, or with the first refusal that applies, and then its output is as it came.

#![tactic(auto)]

ghost use Rattle.refusals.specs.Outcomes.{number, Gives};
ghost use Rattle.refusals.specs.Numbers.{answered};
ghost use Rattle.parameters.specs.Sets.{set_of};
ghost use Rattle.head_writing.specs.Calls.{writing_head};

mod writing;

use heads::kinds::Kind;
use parameters::Parameters;
use refusals::Refusal;

// The head of a file of this kind, to the front of file. What stands behind it is left as it came.
// The kind is a number, as C hands it over: one that is no kind has refusal 19, after those that come before it.
pub fn write_head(kind: u32, p: Parameters, file: &mut [u8]) -> Result<(), Refusal>
    ensures { Gives (writing_head kind (set_of p) file.old) (number (answered result)) file.old file.new }
{
    let kind = Kind::try_from(kind)?;
    let p = writing::writing_refusal(p, file.len())?;
    writing::write_bytes(kind, p, file);
    Ok(())
}
