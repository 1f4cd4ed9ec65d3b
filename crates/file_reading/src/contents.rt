// What follows a head is judged, array by array in stored order, as it is stored.
ghost use Rattle.std.specs.Prelude.{◌≡◌, ◌+◌, ◌*◌, ◌≤◌, length};
ghost use Rattle.refusals.specs.Outcomes.{outcome};
ghost use Rattle.refusals.specs.Numbers.{answered};
ghost use Rattle.parameters.specs.Sets.{set_of};
ghost use Rattle.array_sets.specs.Sets.{array_check};
ghost use Rattle.heads.specs.Kinds.{arrays_of, number_of_kind};
ghost use Rattle.files.specs.Files.{file_numbers, numbers_from, array_at};
ghost use Rattle.files.specs.Calls.{set_checks};

use array_sets::{ArraySet, check_array};
use heads::kinds::Kind;
use parameters::{CheckedParameters, Parameters};
use refusals::Refusal;
use stored_numbers::read_numbers;

// Judges array k by its bytes. Its numbers go to a lent array.
fn stored_array_refusal(
    p: Parameters,
    set: ArraySet,
    k: usize,
    bytes: &[u8],
    x: &mut [i32],
) -> Result<(), Refusal>
    requires { (4 * p.n * k + 4 * p.n ≤ length bytes.now) × (length x.old ≡ 2 * p.n) }
    ensures { answered result ≡ array_check (set_of p) set (array_at (set_of p) k (numbers_from bytes.now)) }
{
    let width = 4 * (p.n as usize);
    let from = width * k;
    let to = from + width;
    read_numbers(&bytes[from..to], x);
    check_array(p, set, x)
}

// Judges the arrays in the bytes after a head, each in the same lent array.
pub(crate) fn stored_refusal(
    kind: Kind,
    p: CheckedParameters,
    bytes: &[u8],
    x: &mut [i32],
) -> Result<(), Refusal>
    requires { (length bytes.now ≡ 2 * file_numbers (number_of_kind kind) p.parameters.n) × (length x.old ≡ 2 * p.parameters.n) }
    ensures { answered result ≡ outcome (set_checks (set_of p.parameters) (arrays_of (number_of_kind kind)) (numbers_from bytes.now)) tt }
{
    for (k, set) in kind.arrays().iter().enumerate() {
        stored_array_refusal(p.parameters, *set, k, bytes, x)?;
    }
    Ok(())
}
