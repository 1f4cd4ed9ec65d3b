// The second file: a sealed one. The numbers of the first one are at the front of the lent ones.
ghost use Rattle.std.specs.Prelude.{◌≡◌, ◌*◌, ◌≤◌, length};
ghost use Rattle.refusals.specs.Outcomes.{done, outcome, number};
ghost use Rattle.refusals.specs.Numbers.{answered};
ghost use Rattle.parameters.specs.Sets.{set_of};
ghost use Rattle.head_reading.specs.Calls.{reading_head};
ghost use Rattle.opened_arrays.specs.Answers.{GivesMessage};
ghost use Rattle.opened_files.specs.Pairs.{inverse_checks};
ghost use Rattle.opened_files.specs.Steps.{KeyRead, key_in, SealedRead, opening_sealed};

use heads::kinds::Kind;
use opened_arrays::open_pair;
use parameters::Parameters;
use refusals::Refusal;
use stored_keys::key_refusal;

// The sealed array takes the place of Fq and g, which opening does not use. n is N of the key, m that of the sealed file.
fn read_sealed(n: u32, m: u32, file: &[u8], numbers: &mut [i32]) -> Result<(), Refusal>
    requires { (n ≤ 1024) × (m ≤ 1024) × (length numbers.old ≡ 8192) }
    ensures { SealedRead (4 * n) (2 * m) file.now (number (answered result)) numbers.old numbers.new }
{
    let f2_end = 4 * (n as usize);
    let end = f2_end + 2 * (m as usize);
    file_reading::read(Kind::Sealed as u32, file, &mut numbers[f2_end..end])
}

fn open_sealed_in(
    p: Parameters,
    key: Result<(), Refusal>,
    sealed: Parameters,
    file: &[u8],
    numbers: &mut [i32],
    message: &mut [u8; 256],
) -> Result<usize, Refusal>
    requires key_read { KeyRead (set_of p) (key_in (set_of p) numbers.old) × (length numbers.old ≡ 8192) }
    requires key_value { answered key ≡ outcome (inverse_checks (set_of p) (key_in (set_of p) numbers.old)) tt }
    requires file_value { reading_head 3 file.now ≡ done (set_of sealed) }
    ensures { GivesMessage (opening_sealed (set_of p) (key_in (set_of p) numbers.old) file.now) result message.old message.new }
{
    read_sealed(p.n, sealed.n, file, numbers)?;
    open_pair(p, key, sealed, numbers, message)
}

// Judges the file by its own head. The key check runs first, though its refusals come last.
pub(crate) fn open_sealed(
    p: Parameters,
    file: &[u8],
    numbers: &mut [i32],
    message: &mut [u8; 256],
) -> Result<usize, Refusal>
    requires { KeyRead (set_of p) (key_in (set_of p) numbers.old) × (length numbers.old ≡ 8192) }
    ensures { GivesMessage (opening_sealed (set_of p) (key_in (set_of p) numbers.old) file.now) result message.old message.new }
{
    let k = files::file_numbers(Kind::Private as u32, p.n);
    let key = key_refusal(p, &numbers[..k]);
    let sealed = head_reading::read_head(Kind::Sealed as u32, file)?;
    open_sealed_in(p, key, sealed, file, numbers, message)
}
