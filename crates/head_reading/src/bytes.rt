// A signed 16-bit number at a byte of a file.
ghost use Rattle.std.specs.Prelude.{◌≡◌, ◌+◌, ◌<◌, ◌≤◌, nat_abs, length};
ghost use Rattle.heads.specs.Heads.{signed_at};

use heads::bytes::signed;

pub(crate) fn signed_at(file: &[u8], k: usize) -> i32
    requires { k + 1 < length file.now }
    ensures { (result ≡ signed_at file.now k) × (nat_abs result ≤ 32768) }
{
    signed(file[k], file[k + 1])
}
