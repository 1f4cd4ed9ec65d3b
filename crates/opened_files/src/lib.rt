// The two files of an input, opened: a private file and a sealed one, one after the other, to a message.
// It writes no line, and reads no file of the system. Any input has its outcome.

#![tactic(auto)]

ghost use Rattle.opened_arrays.specs.Answers.{GivesMessage};
ghost use Rattle.opened_files.specs.Pairs.{opening_files};

mod private_files;
mod sealed_files;

use heads::kinds::Kind;
use refusals::Refusal;

// The message goes to the front of the lent bytes, which have room for the longest one. The bytes behind it, and all of them after a refusal, are as they came.
pub fn open_input(input: &[u8], message: &mut [u8; 256]) -> Result<usize, Refusal>
    ensures { GivesMessage (opening_files input.now) result message.old message.new }
{
    let p = head_reading::read_head(Kind::Private as u32, input)?;
    private_files::open_private(p, input, message)
}
