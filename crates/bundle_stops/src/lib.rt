// The stops of a bundle, read from its bytes, and whether one of them occurs twice.
// It refuses nothing, and looks at no array. Any bytes have their stops: a byte past the end counts as 0.

#![tactic(auto)]

ghost use Rattle.std.specs.Prelude.{◌≡◌, ◌<◌, eqb, length};
ghost use Rattle.unit_operands.specs.Operands.{Forms};
ghost use Rattle.stop_sets.specs.Stops.{any_twice};
ghost use Rattle.heads.specs.Heads.{head_of};
ghost use Rattle.bundles.specs.Bundles.{stops_of, entry_start, count_of, stop_in, entries_of};

use bundle_heads::{coefficient_count, entry_count};
use bundles::{FIRST_ENTRY, entry_length};
use heads::bytes::unsigned_at;
use stop_sets::StopList;

// "a 16-bit stop number", of the entry at this place.
pub fn stop_in(file: &[u8], at: usize) -> u32
    ensures { (result ≡ stop_in file.now at) × (result < 65536) }
{
    unsigned_at(file, at)
}

// The stop of entry k.
fn stop_of(file: &[u8], k: usize) -> u32
    requires { k < 65536 }
    ensures { (result ≡ stop_in file.now (entry_start (head_of file.now).N k)) × (result < 65536) }
{
    let width = entry_length(coefficient_count(file));
    stop_in(file, FIRST_ENTRY + width * k)
}

// The stops of a bundle's entries, with their number.
#[derive(Clone, Copy)]
struct EntryStops<'a> {
    file: &'a [u8],
    count: u16,
    ghost counted: { count ≡ count_of file.now },
}

impl<'a> StopList for EntryStops<'a> {
    ghost stops = { λ entries. stops_of (entries_of entries.file.now) };

    fn count(&self) -> usize {
        usize::from(self.count)
    }

    fn stop(&self, k: usize) -> u16 {
        if k < usize::from(self.count) {
            stop_of(self.file, k) as u16
        } else {
            0
        }
    }
}

// Whether a stop occurs twice. The set of those that were seen takes 8 KiB of stack.
pub fn any_stop_twice(file: &[u8]) -> bool
    ensures { result ≡ any_twice (stops_of (entries_of file.now)) }
{
    let count = entry_count(file) as u16;
    stop_sets::any_twice_of(&EntryStops { file, count })
}

fn read_into(file: &[u8], stops: &mut [u32])
    requires { (length stops.old ≡ count_of file.now) × (count_of file.now < 65536) }
    ensures { stops.new ≡ stops_of (entries_of file.now) }
{
    for (k, stop) in stops.iter_mut().enumerate() {
        *stop = stop_of(file, k);
    }
}

// All stops, to stops, where there is room for just these. Answers whether there was.
// The answer is a bool and no Option, since the value goes to a lent output.
pub fn read_stops(file: &[u8], stops: &mut [u32]) -> bool
    ensures { Forms (eqb (length stops.old) (count_of file.now)) (stops_of (entries_of file.now)) result stops.old stops.new }
{
    if stops.len() != entry_count(file) as usize {
        return false;
    }
    read_into(file, stops);
    true
}
