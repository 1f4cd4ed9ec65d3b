// The lengths of a message and of its array together.
ghost use Rattle.std.specs.Prelude.{◌≡◌, ◌&&◌, ◌*◌, eqb};
ghost use Rattle.packing.specs.Messages.{message_bytes};

use crate::message_bytes;

// Whether a message's length is right, and that of an array is 2N.
pub fn message_and_array_full(n: u32, message: usize, array: usize) -> bool
    ensures { result ≡ (eqb message (message_bytes n) && eqb array (2 * n)) }
{
    message == message_bytes(n) && array == 2 * (n as usize)
}
