// What follows a head, read from a file.
ghost use Rattle.std.specs.Prelude.{◌≡◌, length};
ghost use Rattle.refusals.specs.Outcomes.{outcome, number, Gives};
ghost use Rattle.refusals.specs.Numbers.{answered};
ghost use Rattle.parameters.specs.Sets.{set_of};
ghost use Rattle.heads.specs.Kinds.{number_of_kind};
ghost use Rattle.files.specs.Calls.{stored_checks, reading_content};

use crate::contents::stored_refusal;
use files::lengths_right;
use heads::HEAD_BYTES;
use heads::kinds::Kind;
use parameters::CheckedParameters;
use refusals::Refusal;
use stored_numbers::read_numbers;

// The arrays are judged one at a time in 8 KiB of stack, since a refusal leaves the lent output as it came.
fn reading_refusal(
    kind: Kind,
    p: CheckedParameters,
    file: &[u8],
    room: usize,
) -> Result<(), Refusal>
    ensures { answered result ≡ outcome (stored_checks (number_of_kind kind) (set_of p.parameters) file.now room) tt }
{
    if !lengths_right(kind.number(), p.parameters.n, room, file.len()) {
        return Err(Refusal::WrongLength);
    }
    let width = 2 * (p.parameters.n as usize);
    let mut x = [0i32; 2048];
    stored_refusal(kind, p, &file[HEAD_BYTES..], &mut x[..width])
}

pub(crate) fn read_content(
    kind: Kind,
    p: CheckedParameters,
    file: &[u8],
    numbers: &mut [i32],
) -> Result<(), Refusal>
    ensures { Gives (reading_content (number_of_kind kind) (set_of p.parameters) file.now (length numbers.old)) (number (answered result)) numbers.old numbers.new }
{
    reading_refusal(kind, p, file, numbers.len())?;
    read_numbers(&file[HEAD_BYTES..], numbers);
    Ok(())
}
