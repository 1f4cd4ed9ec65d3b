// Heads of files: what a head is, the kinds of file and the arrays of each, and 16-bit numbers as bytes.
// It reads and writes no file, and decides nothing about one.

#![tactic(auto)]

pub mod bytes;
pub mod kinds;

// A head takes bytes 0 to 15.
pub const HEAD_BYTES: usize = 16;

// The version that a head says.
pub const VERSION: u32 = 1;
