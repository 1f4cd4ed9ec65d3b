// The numbers of a file are judged, array by array in stored order.
ghost use Rattle.std.specs.Prelude.{◌≡◌, ◌+◌, ◌*◌, ◌≤◌, length};
ghost use Rattle.refusals.specs.Outcomes.{outcome};
ghost use Rattle.refusals.specs.Numbers.{answered};
ghost use Rattle.parameters.specs.Sets.{set_of};
ghost use Rattle.array_sets.specs.Sets.{array_check};
ghost use Rattle.heads.specs.Kinds.{arrays_of, number_of_kind};
ghost use Rattle.files.specs.Files.{file_numbers, array_at};
ghost use Rattle.files.specs.Calls.{set_checks};

use array_sets::{ArraySet, check_array};
use heads::kinds::Kind;
use parameters::{CheckedParameters, Parameters};
use refusals::Refusal;

// Judges array k: each array is the next 2N numbers.
fn array_refusal(p: Parameters, set: ArraySet, k: usize, numbers: &[i32]) -> Result<(), Refusal>
    requires { 2 * p.n * k + 2 * p.n ≤ length numbers.now }
    ensures { answered result ≡ array_check (set_of p) set (array_at (set_of p) k numbers.now) }
{
    let width = 2 * (p.n as usize);
    let from = width * k;
    let to = from + width;
    check_array(p, set, &numbers[from..to])
}

pub(crate) fn sets_refusal(kind: Kind, p: CheckedParameters, numbers: &[i32]) -> Result<(), Refusal>
    requires { length numbers.now ≡ file_numbers (number_of_kind kind) p.parameters.n }
    ensures { answered result ≡ outcome (set_checks (set_of p.parameters) (arrays_of (number_of_kind kind)) numbers.now) tt }
{
    for (k, set) in kind.arrays().iter().enumerate() {
        array_refusal(p.parameters, *set, k, numbers)?;
    }
    Ok(())
}
