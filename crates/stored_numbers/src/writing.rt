// The numbers of arrays, written to the bytes that store them.
ghost use Rattle.std.specs.Prelude.{◌≡◌, ◌*◌, length};
ghost use Rattle.arrays.specs.Arrays.{Small};
ghost use Rattle.files.specs.Files.{bytes_of};

pub(crate) fn write_into(numbers: &[i32], bytes: &mut [u8])
    requires { (length bytes.old ≡ 2 * length numbers.now) × Small numbers.now }
    ensures { bytes.new ≡ bytes_of numbers.now }
{
    for (i, z) in numbers.iter().enumerate() {
        let [high, low] = (*z as i16).to_be_bytes();
        bytes[2 * i] = high;
        bytes[2 * i + 1] = low;
    }
}
