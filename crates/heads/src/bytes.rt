// 16-bit numbers: of two bytes, at a byte of a file, and as bits.
ghost use Rattle.std.specs.Prelude.{◌≡◌, ◌<◌, ◌≤◌, nat_abs, get_or};
ghost use Rattle.heads.specs.Heads.{number16, bits16, signed16, unsigned_at};

// The signed number of two bytes.
pub fn signed(high: u8, low: u8) -> i32
    ensures { (result ≡ signed16 (number16 high low)) × (nat_abs result ≤ 32768) }
{
    i32::from(i16::from_be_bytes([high, low]))
}

// The byte at place k, 0 past the end.
fn byte_at(file: &[u8], k: usize) -> u8
    ensures { result ≡ get_or file.now k 0 }
{
    file.get(k).copied().unwrap_or(0)
}

// The number at byte k; a byte past the end counts as 0.
pub fn unsigned_at(file: &[u8], k: usize) -> u32
    ensures { (result ≡ unsigned_at file.now k) × (result < 65536) }
{
    // Past the end both bytes are 0, and k + 1 might not fit.
    if file.len() <= k {
        return 0;
    }
    u32::from(u16::from_be_bytes([file[k], byte_at(file, k + 1)]))
}

// The bits of a signed number.
pub fn bits_of(z: i16) -> u32
    ensures { (result ≡ bits16 z) × (result < 65536) }
{
    u32::from(z.cast_unsigned())
}
