// The numbers of arrays, read from the bytes that store them.
ghost use Rattle.std.specs.Prelude.{◌≡◌, ◌*◌, length};
ghost use Rattle.files.specs.Files.{numbers_from};

use heads::bytes::signed;

pub(crate) fn read_into(bytes: &[u8], numbers: &mut [i32])
    requires { length bytes.now ≡ 2 * length numbers.old }
    ensures { numbers.new ≡ numbers_from bytes.now }
{
    for (k, z) in numbers.iter_mut().enumerate() {
        *z = signed(bytes[2 * k], bytes[2 * k + 1]);
    }
}
