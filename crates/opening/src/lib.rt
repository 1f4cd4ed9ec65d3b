// The opening program's work: from its input to the line that it prints.
// It reads and prints nothing itself. Any input has its line. At every N the work takes less than 72 KiB of stack.

#![tactic(auto)]

ghost use Rattle.std.specs.Prelude.{◌≡◌, ◌++◌, length, drop};
ghost use Rattle.refusals.specs.Outcomes.{number, Gives};
ghost use Rattle.refusals.specs.Numbers.{answered};
ghost use Rattle.lines.specs.Lines.{line_of};
ghost use Rattle.opening.specs.Program.{opening_line, line_writing, line_length, opened_is};

use lines::LINE_BYTES;
use opened_files::open_input;
use refusals::Refusal;

// The line of what was opened, to the front of line; answers its length.
fn write_opened(opened: Result<usize, Refusal>, message: &[u8], line: &mut [u8]) -> usize
    requires { (length message.now ≡ 256) × (length line.old ≡ 515) }
    ensures { (result ≡ length (line_of (opened_is opened message.now))) × (line.new ≡ line_of (opened_is opened message.now) ++ drop result line.old) }
{
    match opened {
        Ok(n) => {
            // No message is longer than its room.
            let end = n.min(message.len());
            lines::write_message(&message[..end], line)
        }
        Err(refusal) => lines::write_refusal(refusal, line),
    }
}

// The message goes to a lent one.
fn write_line_in(input: &[u8], message: &mut [u8; 256], line: &mut [u8]) -> usize
    requires { length line.old ≡ 515 }
    ensures { (result ≡ length (opening_line input.now)) × (line.new ≡ opening_line input.now ++ drop result line.old) }
{
    let opened = open_input(input, message);
    write_opened(opened, message, line)
}

fn write_line(input: &[u8], line: &mut [u8]) -> usize
    requires { length line.old ≡ 515 }
    ensures { (result ≡ length (opening_line input.now)) × (line.new ≡ opening_line input.now ++ drop result line.old) }
{
    let mut message = [0u8; 256];
    write_line_in(input, &mut message, line)
}

// The line that the opening program prints for its input, to the front of line, and its length to used. Any input has its line, so the call refuses only a line that is not lent with LINE_BYTES bytes.
pub fn open_files(input: &[u8], line: &mut [u8], used: &mut usize) -> Result<(), Refusal>
    ensures gives { Gives (line_writing input.now line.old) (number (answered result)) line.old line.new }
    ensures gives_2 { Gives (line_length input.now (length line.old)) (number (answered result)) used.old used.new }
{
    if line.len() != LINE_BYTES {
        return Err(Refusal::WrongLength);
    }
    let end = write_line(input, line);
    *used = end;
    Ok(())
}
