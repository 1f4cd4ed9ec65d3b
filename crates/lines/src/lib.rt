// The line that the opening program prints, of a message and of a refusal.
// It writes to lent bytes, prints nothing, and does not look at what a message says.

#![tactic(auto)]

ghost use Rattle.std.specs.Prelude.{◌≡◌, ◌++◌, ◌+◌, ◌*◌, ◌<◌, ◌≤◌, length, drop};
ghost use Rattle.refusals.specs.Outcomes.{done, refused};
ghost use Rattle.refusals.specs.Numbers.{number_of};
ghost use Rattle.lines.specs.Lines.{hex_digit, line_of, Writes};

use refusals::Refusal;

// The longest line: `0`, a space, 256 bytes in hexadecimal and a newline.
pub const LINE_BYTES: usize = 515;

#[tactic(auto, unfolding(crate::specs::Lines::hex_digit))]
fn hex_digit(d: u8) -> u8
    requires { d < 16 }
    ensures { result ≡ hex_digit d }
{
    if d < 10 { b'0' + d } else { b'A' + (d - 10) }
}

// Answers the length of the line.
fn write_digits(message: &[u8], line: &mut [u8]) -> usize
    requires { 2 * length message.now + 2 < length line.old }
    ensures { (result ≡ length (line_of (done message.now))) × (line.new ≡ line_of (done message.now) ++ drop result line.old) }
{
    line[0] = b'0';
    line[1] = b' ';
    for (i, b) in message.iter().enumerate() {
        line[2 + 2 * i] = hex_digit(b / 16);
        line[3 + 2 * i] = hex_digit(b % 16);
    }
    let end = 2 + 2 * message.len();
    line[end] = b'\n';
    end + 1
}

// The line of a message, to the front of line. Answers its length, or 0 where it does not fit.
// A number and no Option, as the clause `Writes` has it: no line is empty, so 0 tells that none was written.
pub fn write_message(message: &[u8], line: &mut [u8]) -> usize
    ensures { Writes (line_of (done message.now)) result line.old line.new }
{
    // Half of the room, rounded up: the line has 2 × message.len() + 3 bytes.
    if (line.len() + 1) / 2 < message.len() + 2 {
        return 0;
    }
    write_digits(message, line)
}

// Bytes, to the front of line. Answers how many they are, or 0 where they do not fit.
fn write_bytes(bytes: &[u8], line: &mut [u8]) -> usize
    ensures { Writes bytes.now result line.old line.new }
{
    if line.len() < bytes.len() {
        return 0;
    }
    line[..bytes.len()].copy_from_slice(bytes);
    bytes.len()
}

// The line of a refusal, to the front of line. Answers its length, or 0 where it does not fit.
#[tactic(auto, unfolding(crate::specs::Lines::decimal))]
pub fn write_refusal(refusal: Refusal, line: &mut [u8]) -> usize
    ensures { Writes (line_of (refused (number_of refusal))) result line.old line.new }
{
    let n = refusal.number() as u8;
    if n < 10 {
        write_bytes(&[b'0' + n, b' ', b'-', b'\n'], line)
    } else {
        write_bytes(&[b'0' + n / 10, b'0' + n % 10, b' ', b'-', b'\n'], line)
    }
}
