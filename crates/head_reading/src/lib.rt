// The call that reads a head. It works on lent bytes, and does not look at what follows a head.
// It ends with the parameters, or with the first refusal that applies.

#![tactic(auto)]

ghost use Rattle.std.specs.Prelude.{◌≡◌};
ghost use Rattle.parameters.specs.Sets.{made};
ghost use Rattle.head_reading.specs.Calls.{reading_head};

mod bytes;
mod reading;

use parameters::Parameters;
use refusals::Refusal;

// The parameters of a file of the wanted kind, from its head alone: they tell how long the file is and how many numbers it holds.
// The kind is a number, as C hands it over: one that is no kind has refusal 19, after those that come before it.
pub fn read_head(kind: u32, file: &[u8]) -> Result<Parameters, Refusal>
    ensures { made result ≡ reading_head kind file.now }
{
    reading::head_refusal(kind, file)?;
    reading::head_parameters(file)
}
