// Message bytes as polynomials, and back: what packing and unpacking are, the lengths of a message, its spare bits, and one coefficient of it.
// It answers no call, and seals and opens nothing.

#![tactic(auto)]

ghost use Rattle.std.specs.Prelude.{◌≡◌, ◌&&◌, eqb};
ghost use Rattle.eisenstein.specs.Values.{value};
ghost use Rattle.arrays.specs.Arrays.{full};
ghost use Rattle.packing.specs.Messages.{message_bytes, bit_of, packed, spare_bit_set};

pub mod lengths;

use eisenstein::Pair;

// The length of a message: "N/4 bytes, rounded up".
pub fn message_bytes(n: u32) -> usize
    ensures { result ≡ message_bytes n }
{
    (n as usize + 3) / 4
}

// Whether a message's length is right, and those of three arrays are 2N.
pub fn full_with_message(n: u32, message: usize, x: usize, y: usize, z: usize) -> bool
    ensures { result ≡ (eqb message (message_bytes n) && (full n x && (full n y && full n z))) }
{
    message == message_bytes(n) && arrays::three_full(n, x, y, z)
}

// Bit k of the message, highest bit of a byte first; 0 past its end.
pub fn bit_of(message: &[u8], k: usize) -> u8
    ensures { result ≡ bit_of message.now k }
{
    if k / 8 < message.len() {
        (message[k / 8] >> (7 - k % 8)) % 2
    } else {
        0
    }
}

// Whether a spare bit of the last byte is set.
pub fn spare_bit_set(n: u32, message: &[u8]) -> bool
    ensures { result ≡ spare_bit_set n message.now }
{
    (2 * (n as usize)..8 * message_bytes(n)).any(|k| bit_of(message, k) != 0)
}

// The coefficient of pair i of the message's bits.
pub fn pair_of(message: &[u8], i: u32) -> Pair
    ensures { value result.a result.b ≡ packed message.now i }
{
    let k = 2 * (i as usize);
    let a = bit_of(message, k);
    let b = bit_of(message, k + 1);
    if a + b == 2 {
        Pair { a: -1, b: -1 }
    } else {
        Pair {
            a: i32::from(a),
            b: i32::from(b),
        }
    }
}
