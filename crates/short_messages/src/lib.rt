// Short messages: their lengths, the bits that a message is made of, and where a message ends as a short one.
// It seals and opens nothing, and refuses nothing.

#![tactic(auto)]

ghost use Rattle.std.specs.Prelude.{◌≡◌, ◌*◌, length, replicate};
ghost use Rattle.packing.specs.Messages.{bit_of, byte, listed};
ghost use Rattle.short_messages.specs.ShortMessages.{too_long, longest_short, padded_bit, last_one};

use packing::{bit_of, message_bytes};

// Whether 8 × length + 1 exceeds 2N, which is so where there are as many bytes as a message of 2N bits has, or more.
pub fn too_long(n: u32, length: usize) -> bool
    ensures { result ≡ too_long n length }
{
    message_bytes(n) <= length
}

// The bytes to lend for a short message that is opened: "(2N − 1)/8 bytes rounded down".
pub fn longest_short(n: u32) -> usize
    ensures { result ≡ longest_short n }
{
    if n == 0 {
        return 0;
    }
    (2 * (n as usize) - 1) / 8
}

// Byte j of the bits of a short message, the 1 and the zeros.
fn padded_byte(message: &[u8], j: usize) -> u8
    ensures { result ≡ byte (padded_bit message.now) j }
{
    if j < message.len() {
        message[j]
    } else if j == message.len() {
        128
    } else {
        0
    }
}

// The bits of a short message, the 1 and the zeros, as bytes to the whole of out.
pub fn pad(message: &[u8], out: &mut [u8])
    ensures { out.new ≡ listed (length out.old) (byte (padded_bit message.now)) }
{
    for (j, b) in out.iter_mut().enumerate() {
        *b = padded_byte(message, j);
    }
}

// The last 1 of the 2N bits of a message.
pub fn last_one(n: u32, message: &[u8]) -> Option<usize>
    ensures { result ≡ last_one (2 * n) (bit_of message.now) }
{
    for k in (0..2 * (n as usize)).rev() {
        if bit_of(message, k) == 1 {
            return Some(k);
        }
    }
    None
}
