// Files: what a file of a kind is, what reading and writing one give, both round trips, and its lengths.
// It works on no bytes: reading and writing are crates of their own.

#![tactic(auto)]

ghost use Rattle.std.specs.Prelude.{◌≡◌, pos, length, replicate};
ghost use Rattle.heads.specs.Kinds.{arrays_of};
ghost use Rattle.files.specs.Files.{file_numbers, file_bytes};
ghost use Rattle.files.specs.Calls.{right_lengths};

use heads::HEAD_BYTES;
use heads::kinds::Kind;

// How many arrays a file of this kind has: none where it is not made of arrays alone, or where the number is no kind.
fn array_count(kind: u32) -> usize
    ensures { result ≡ length (arrays_of kind) }
{
    Kind::try_from(kind).map_or(0, |kind| kind.arrays().len())
}

// The lengths of a file of this kind, in bytes and in numbers of its arrays; of a kind that is not made of arrays alone, those of its head.
// The kind is a number, as C hands it over: one that is no kind has refusal 19, after those that come before it.
pub fn file_bytes(kind: u32, n: u32) -> usize
    ensures { result ≡ file_bytes kind n }
{
    let count = array_count(kind);
    HEAD_BYTES + 4 * (n as usize) * count
}

pub fn file_numbers(kind: u32, n: u32) -> usize
    ensures { result ≡ file_numbers kind n }
{
    let count = array_count(kind);
    2 * (n as usize) * count
}

// Zeros, with room for the longest file's numbers, four arrays at the largest N: 32 KiB of the caller's stack.
pub fn four_arrays() -> [i32; 8192]
    ensures { result ≡ replicate 8192 (pos 0) }
{
    [0i32; 8192]
}

// Whether a file of this kind and its numbers have these lengths.
pub fn lengths_right(kind: u32, n: u32, numbers: usize, file: usize) -> bool
    ensures { result ≡ right_lengths kind n numbers file }
{
    0 < array_count(kind) && file == file_bytes(kind, n) && numbers == file_numbers(kind, n)
}
