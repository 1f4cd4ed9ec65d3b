// The opening program: one private file and directly after it one sealed file on standard input, one line on standard output.
//
// What is printed is `opening::open_files` of the input, which is proved. This file only reads and writes.
// - Input: it is read to its end. If a read fails, nothing is printed: what was read may be a part of the input, and document 01 has no line for it.
// - Output: if it is closed, or a write fails, there is nobody to tell, and the program ends.

#![tactic(auto)]

ghost use Rattle.std.specs.Prelude.{◌≡◌, ◌+◌, ◌-◌, ◌≤◌, IfSome, min, length};

use lines::LINE_BYTES;
use std::io;
use std::io::{Read, Stdin};

// Two files have at most 16 + 16 × 1,024 and 16 + 4 × 1,024 bytes, 20,512 in all. Of a longer input the first 20,513 bytes give the same line (`LongInputLine` of the crate `opening`), so the rest is read and left.
const INPUT_BYTES: usize = 20513;

// One read to the buffer from byte `at` on, or, where it is full, to bytes that are left. Answers what `read` does: the number of bytes, 0 at the end of the input, or why it failed.
fn read_some(mut input: Stdin, buffer: &mut [u8], at: usize) -> io::Result<usize> {
    if at < buffer.len() {
        return input.read(&mut buffer[at..]);
    }
    let mut left = [0u8; 4096];
    input.read(&mut left)
}

// How far the buffer is filled after such a read.
fn filled(buffer: &[u8], at: usize, got: usize) -> usize
    requires { at ≤ length buffer.now }
    ensures { (result ≤ length buffer.now) × (result ≡ at + min got (length buffer.now - at)) }
{
    at + got.min(buffer.len() - at)
}

// Reads the input to its end, and answers how far the buffer is filled, or nothing if a read fails.
// A proved loop has to end, and nothing says that an input does. So the loop's turns are counted, up to a number that no run reaches.
fn read_input(input: Stdin, buffer: &mut [u8]) -> Option<usize>
    ensures { IfSome result (λ n. n ≤ length buffer.old) }
{
    let mut at = 0;
    for _ in 0..u64::MAX {
        match read_some(input, buffer, at) {
            Ok(0) => return Some(at),
            Ok(got) => at = filled(buffer, at, got),
            Err(_) => return None,
        }
    }
    None
}

fn main(rt: HostRuntime) {
    let mut input = [0u8; INPUT_BYTES];
    let Some(n) = read_input(rt.stdin(), &mut input) else {
        return;
    };
    let mut line = [0u8; LINE_BYTES];
    let mut used = 0;
    // The line has its room, so nothing is refused.
    let _ = opening::open_files(&input[..n], &mut line, &mut used);
    // Where a write fails, there is nobody to tell.
    let _ = rt.write_all(&line[..used]);
}
