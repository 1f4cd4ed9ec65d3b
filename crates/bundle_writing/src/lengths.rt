// The lengths of what is handed over to be written, and of the output.
ghost use Rattle.std.specs.Prelude.{◌≡◌};
ghost use Rattle.bundles.specs.Calls.{right_given};

use bundles::right_length;

// One stop and 2N numbers for each entry, and a bundle of so many entries.
pub(crate) fn lengths_right(n: u32, stops: usize, numbers: usize, room: usize) -> bool
    ensures { result ≡ right_given n stops numbers room }
{
    right_length(n, stops, room) && numbers == 2 * (n as usize) * stops
}
