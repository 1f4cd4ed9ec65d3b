// Arrays of 2N numbers: reading a number, comparing a coefficient, lengths, and zeros to begin with.
// It asks nothing of an array's numbers, and forms no sum or product of arrays.
// No function relies on a length or on N: a number past the end is read as 0.

#![tactic(auto)]

ghost use Rattle.std.specs.Prelude.{◌≡◌, ◌&&◌, ◌^◌, ◌<◌, ◌≤◌, pos, nat_abs, length, get_or, replicate};
ghost use Rattle.eisenstein.specs.Values.{value, same};
ghost use Rattle.polynomials.specs.Polynomials.{coefficient};
ghost use Rattle.arrays.specs.Arrays.{full, Zeros};

// Zeros, with room for an array at the largest N: 8 KiB of the caller's stack.
pub fn zeros() -> [i32; 2048]
    ensures { result ≡ replicate 2048 (pos 0) }
{
    [0i32; 2048]
}

// One number of an array, 0 past its end.
pub fn at(x: &[i32], k: usize) -> i64
    ensures { (result ≡ get_or x.now k (pos 0)) × (nat_abs result ≤ 2 ^ 31) }
{
    if k < x.len() { i64::from(x[k]) } else { 0 }
}

// Whether (a, b) is (c, d).
pub fn equal(a: i64, b: i64, c: i64, d: i64) -> bool
    ensures { result ≡ same (value a b) (value c d) }
{
    a == c && b == d
}

// Whether coefficient i is (a, b).
pub fn coefficient_is(x: &[i32], i: u32, a: i64, b: i64) -> bool
    ensures { result ≡ same (coefficient x.now i) (value a b) }
{
    let k = 2 * (i as usize);
    equal(at(x, k), at(x, k + 1), a, b)
}

// Whether three lengths are 2N.
pub fn three_full(n: u32, x: usize, y: usize, z: usize) -> bool
    ensures { result ≡ (full n x && (full n y && full n z)) }
{
    let long = 2 * (n as usize);
    x == long && y == long && z == long
}

// Makes each number zero.
pub fn clear(out: &mut [i32])
    ensures { (length out.new ≡ length out.old) × Zeros out.new }
{
    out.fill(0);
}
