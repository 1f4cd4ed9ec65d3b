// The message of a private and a sealed file, once both are read: of two parameter sets, what the key check answered, and the arrays f, F2 and e.
// It reads no file, and checks no key.

#![tactic(auto)]

ghost use Rattle.std.specs.Prelude.{◌≡◌, length};
ghost use Rattle.refusals.specs.Numbers.{answered};
ghost use Rattle.parameters.specs.Sets.{set_of};
ghost use Rattle.packing.specs.Messages.{message_bytes};
ghost use Rattle.etru.specs.Calls.{opening};
ghost use Rattle.opened_arrays.specs.Answers.{GivesMessage};
ghost use Rattle.opened_arrays.specs.Openings.{opening_arrays, opening_with};

use parameter_comparison::same_parameters;
use parameters::Parameters;
use refusals::Refusal;

// The message goes to the front of a lent one. Only an N that is refused has a longer one.
fn open_message(
    p: Parameters,
    f: &[i32],
    f2: &[i32],
    e: &[i32],
    message: &mut [u8],
) -> Result<usize, Refusal>
    requires { length message.old ≡ 256 }
    ensures { GivesMessage (opening (set_of p) f.now f2.now e.now (message_bytes p.n)) result message.old message.new }
{
    let k = packing::message_bytes(p.n).min(256);
    unsealing::open(p, f, f2, e, &mut message[..k])?;
    Ok(k)
}

// The arrays are one after another. Where the numbers end first, an array is too short, and opening refuses it.
fn open_arrays(p: Parameters, numbers: &[i32], message: &mut [u8]) -> Result<usize, Refusal>
    requires { length message.old ≡ 256 }
    ensures { GivesMessage (opening_arrays (set_of p) numbers.now) result message.old message.new }
{
    let width = 2 * (p.n as usize);
    let f_end = width.min(numbers.len());
    let f2_end = (2 * width).min(numbers.len());
    let e_end = (3 * width).min(numbers.len());
    let f = &numbers[..f_end];
    let f2 = &numbers[f_end..f2_end];
    let e = &numbers[f2_end..e_end];
    open_message(p, f, f2, e, message)
}

// Numbers beyond the three arrays play no part. The message goes to the front of the lent bytes, which have room for the longest one. The bytes behind it, and all of them after a refusal, are as they came.
pub fn open_pair(
    p: Parameters,
    key: Result<(), Refusal>,
    sealed: Parameters,
    numbers: &[i32],
    message: &mut [u8; 256],
) -> Result<usize, Refusal>
    ensures { GivesMessage (opening_with (set_of p) (set_of sealed) (answered key) numbers.now) result message.old message.new }
{
    if !same_parameters(p, sealed) {
        return Err(Refusal::ParametersDiffer);
    }
    key?;
    open_arrays(p, numbers, message)
}
