// A file, written from a parameter set and the numbers of its arrays.
ghost use Rattle.std.specs.Prelude.{◌≡◌, ◌+◌, ◌*◌, length};
ghost use Rattle.refusals.specs.Outcomes.{outcome, number, Gives};
ghost use Rattle.refusals.specs.Numbers.{answered};
ghost use Rattle.parameters.specs.Sets.{set_of};
ghost use Rattle.arrays.specs.Arrays.{Small};
ghost use Rattle.heads.specs.Kinds.{number_of_kind};
ghost use Rattle.heads.specs.Heads.{head_length};
ghost use Rattle.files.specs.Files.{file_of};
ghost use Rattle.files.specs.Calls.{given_checks, writing_content};

use crate::contents::sets_refusal;
use files::lengths_right;
use head_writing::write_head;
use heads::HEAD_BYTES;
use heads::kinds::Kind;
use parameters::CheckedParameters;
use refusals::Refusal;
use stored_numbers::write_numbers;

fn writing_refusal(
    kind: Kind,
    p: CheckedParameters,
    numbers: &[i32],
    room: usize,
) -> Result<(), Refusal>
    ensures { answered result ≡ outcome (given_checks (number_of_kind kind) (set_of p.parameters) numbers.now room) tt }
{
    if !lengths_right(kind.number(), p.parameters.n, numbers.len(), room) {
        return Err(Refusal::WrongLength);
    }
    sets_refusal(kind, p, numbers)
}

fn write_file(kind: Kind, p: CheckedParameters, numbers: &[i32], file: &mut [u8])
    requires { (length file.old ≡ head_length + 2 * length numbers.now) × Small numbers.now }
    ensures { file.new ≡ file_of (number_of_kind kind) (set_of p.parameters) numbers.now }
{
    // Nothing is refused: the kind, the parameters and the lengths have passed.
    let _ = write_head(kind.number(), p.parameters, file);
    write_numbers(numbers, &mut file[HEAD_BYTES..]);
}

pub(crate) fn write_content(
    kind: Kind,
    p: CheckedParameters,
    numbers: &[i32],
    file: &mut [u8],
) -> Result<(), Refusal>
    ensures { Gives (writing_content (number_of_kind kind) (set_of p.parameters) numbers.now (length file.old)) (number (answered result)) file.old file.new }
{
    writing_refusal(kind, p, numbers, file.len())?;
    write_file(kind, p, numbers, file);
    Ok(())
}
