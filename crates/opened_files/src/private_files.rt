// The first file: a private one, as far as its own head says.
ghost use Rattle.std.specs.Prelude.{◌≡◌, min, length};
ghost use Rattle.refusals.specs.Outcomes.{done};
ghost use Rattle.parameters.specs.Sets.{set_of};
ghost use Rattle.files.specs.Files.{file_bytes};
ghost use Rattle.head_reading.specs.Calls.{reading_head};
ghost use Rattle.opened_arrays.specs.Answers.{GivesMessage};
ghost use Rattle.opened_files.specs.Pairs.{opening_pair, opening_files};

use crate::sealed_files::open_sealed;
use heads::kinds::Kind;
use parameters::Parameters;
use refusals::Refusal;

// The key goes to the front of the lent numbers.
fn open_private_in(
    p: Parameters,
    first: &[u8],
    second: &[u8],
    numbers: &mut [i32],
    message: &mut [u8; 256],
) -> Result<usize, Refusal>
    requires { (reading_head 2 first.now ≡ done (set_of p)) × (length numbers.old ≡ 8192) }
    ensures { GivesMessage (opening_pair first.now second.now) result message.old message.new }
{
    let k = files::file_numbers(Kind::Private as u32, p.n);
    file_reading::read(Kind::Private as u32, first, &mut numbers[..k])?;
    open_sealed(p, second, numbers, message)
}

// Where the first file ends: after its length, or with the input.
fn first_end(n: u32, all: usize) -> usize
    ensures { result ≡ min (file_bytes 2 n) all }
{
    files::file_bytes(Kind::Private as u32, n).min(all)
}

pub(crate) fn open_private(
    p: Parameters,
    input: &[u8],
    message: &mut [u8; 256],
) -> Result<usize, Refusal>
    requires { reading_head 2 input.now ≡ done (set_of p) }
    ensures { GivesMessage (opening_files input.now) result message.old message.new }
{
    let end = first_end(p.n, input.len());
    let mut numbers = [0i32; 8192];
    open_private_in(p, &input[..end], &input[end..], &mut numbers, message)
}
