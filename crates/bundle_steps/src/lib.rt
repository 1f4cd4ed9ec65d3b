// The steps of a reader, on a bundle's bytes and a place in them: what stands there, and where the next entry stands.
// They refuse nothing, ask nothing of their caller and copy nothing; a place where no entry stands is past the end.

#![tactic(auto)]

ghost use Rattle.std.specs.Prelude.{◌≡◌, cond, ◌+◌};
ghost use Rattle.heads.specs.Heads.{head_of};
ghost use Rattle.bundles.specs.Bundles.{stop_length, stored_at};
ghost use Rattle.bundles.specs.Steps.{stands_at, stop_at, part_at, next_at};

use bundle_heads::coefficient_count;
use bundle_stops::stop_in;
use bundles::{STOP_BYTES, entry_length};

// Whether an entry stands at this place.
fn stands_at(bytes: &[u8], at: usize) -> bool
    ensures { result ≡ stands_at bytes.now at }
{
    at <= bytes.len() && entry_length(coefficient_count(bytes)) <= bytes.len() - at
}

// The stop number of the entry at this place, or that no entry is left.
pub fn stop_at(bytes: &[u8], at: usize) -> Option<u32>
    ensures { result ≡ stop_at bytes.now at }
{
    if !stands_at(bytes, at) {
        return None;
    }
    Some(stop_in(bytes, at))
}

// The part of the bundle that is the sealed array of the entry at this place; past the end it is empty.
pub fn array_at<'a>(bytes: &'a [u8], at: usize) -> &'a [u8]
    ensures { result.now ≡ part_at bytes.now at }
{
    if !stands_at(bytes, at) {
        return &bytes[..0];
    }
    &bytes[at + STOP_BYTES..at + entry_length(coefficient_count(bytes))]
}

// Where the next entry stands; past the end the same place again.
pub fn next_at(bytes: &[u8], at: usize) -> usize
    ensures { result ≡ next_at bytes.now at }
{
    if !stands_at(bytes, at) {
        return at;
    }
    at + entry_length(coefficient_count(bytes))
}

// One step for callers that hold a place: the entry's stop and the place of its array go to the outputs, and at moves on. Past the end nothing is written.
// The answer is a bool and no Option, since the value goes to a lent output.
pub fn next_entry(bytes: &[u8], at: &mut usize, stop: &mut u32, part: &mut usize) -> bool
    ensures value { (result ≡ stands_at bytes.now at.old) × (at.new ≡ next_at bytes.now at.old) }
    ensures stop_after { stop.new ≡ cond (stands_at bytes.now at.old)
        (stored_at (head_of bytes.now).N bytes.now at.old).stop stop.old }
    ensures part_after { part.new ≡ cond (stands_at bytes.now at.old) (at.old + stop_length) part.old }
{
    // All is read before the first output is written: behind that the compiler would have it read again.
    let from = *at;
    if !stands_at(bytes, from) {
        return false;
    }
    let number = stop_in(bytes, from);
    let next = next_at(bytes, from);
    *at = next;
    *stop = number;
    *part = from + STOP_BYTES;
    true
}
