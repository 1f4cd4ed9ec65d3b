// Whether a bundle is accepted: every refusal of reading it, in order, and where a reader of it begins.
// It works on lent bytes, and opens no entry. At every N it takes less than 12 KiB of stack.

#![tactic(auto)]

ghost use Rattle.std.specs.Prelude.{◌≡◌};
ghost use Rattle.refusals.specs.Outcomes.{outcome, Passes};
ghost use Rattle.refusals.specs.Numbers.{answered};
ghost use Rattle.parameters.specs.Sets.{made, set_of};
ghost use Rattle.heads.specs.Heads.{head_of};
ghost use Rattle.bundles.specs.Bundles.{entries_of};
ghost use Rattle.bundles.specs.Calls.{count_checks, entries_checks, making_reader};
ghost use Rattle.bundles.specs.Steps.{start_of};

mod entry_arrays;

use bundle_heads::read_bundle_head;
use bundle_stops::any_stop_twice;
use bundles::FIRST_ENTRY;
use entry_arrays::arrays_refusal;
use parameters::Parameters;
use refusals::Refusal;

// 25 over all stops, then each entry's 12.
fn entries_refusal(p: Parameters, file: &[u8]) -> Result<(), Refusal>
    requires { (set_of p ≡ head_of file.now) × Passes (count_checks file.now) }
    ensures { answered result ≡ outcome (entries_checks (head_of file.now) (entries_of file.now)) tt }
{
    if any_stop_twice(file) {
        return Err(Refusal::StopOccursTwice);
    }
    arrays_refusal(p, file)
}

// The parameters of a bundle that is accepted whole, or its first refusal.
pub fn check_bundle(file: &[u8]) -> Result<Parameters, Refusal>
    ensures { made result ≡ making_reader file.now }
{
    let p = read_bundle_head(file)?;
    entries_refusal(p, file)?;
    Ok(p)
}

// Where a reader begins, and the parameters of the bundle or its first refusal.
// The place stands beside the answer, since a reader that is refused has one too: the end, where no entry is left.
#[derive(Clone, Copy)]
pub struct Start {
    pub at: usize,
    pub made: Result<Parameters, Refusal>,
}

pub fn begin(bytes: &[u8]) -> Start
    ensures { (result.at ≡ start_of bytes.now) × (made result.made ≡ making_reader bytes.now) }
{
    let made = check_bundle(bytes);
    match made {
        Ok(_) => Start {
            at: FIRST_ENTRY,
            made,
        },
        Err(_) => Start {
            at: bytes.len(),
            made,
        },
    }
}
