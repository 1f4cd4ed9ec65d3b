// The message that an array stands for, byte by byte.
ghost use Rattle.std.specs.Prelude.{◌≡◌, ◌*◌, ◌<◌, ◌≤◌, length};
ghost use Rattle.polynomials.specs.Polynomials.{coefficient};
ghost use Rattle.packing.specs.Messages.{message_bytes, message_bit, byte, unpacked};
ghost use Rattle.message_unpacking.specs.Steps.{four_bits};

// Bit k of the message that m stands for.
fn message_bit(n: usize, m: &[i32], k: usize) -> u32
    requires { (n ≤ 1024) × (length m.now ≡ 2 * n) }
    ensures { (result ≡ message_bit n (coefficient m.now) k) × (result < 2) }
{
    u32::from(k < 2 * n && eisenstein::odd(arrays::at(m, k)))
}

// Four bits of it, from bit k on, as a number.
fn four_bits(n: usize, m: &[i32], k: usize) -> u32
    requires { (n ≤ 1024) × (length m.now ≡ 2 * n) × (k < 8192) }
    ensures { (result ≡ four_bits (message_bit n (coefficient m.now)) k) × (result < 16) }
{
    let b0 = message_bit(n, m, k);
    let b1 = message_bit(n, m, k + 1);
    let b2 = message_bit(n, m, k + 2);
    let b3 = message_bit(n, m, k + 3);
    8 * b0 + 4 * b1 + 2 * b2 + b3
}

// Byte j of that message.
fn byte_of(n: usize, m: &[i32], j: usize) -> u8
    requires { (n ≤ 1024) × (length m.now ≡ 2 * n) × (j < 1024) }
    ensures { result ≡ byte (message_bit n (coefficient m.now)) j }
{
    let high = four_bits(n, m, 8 * j);
    let low = four_bits(n, m, 8 * j + 4);
    (16 * high + low) as u8
}

pub(crate) fn unpack_into(n: usize, m: &[i32], message: &mut [u8])
    requires { (n ≤ 1024) × (length m.now ≡ 2 * n) × (length message.old ≡ message_bytes n) }
    ensures { message.new ≡ unpacked n (coefficient m.now) }
{
    for (j, byte) in message.iter_mut().enumerate() {
        *byte = byte_of(n, m, j);
    }
}
