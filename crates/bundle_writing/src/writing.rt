// A bundle is written: the head, the count, then the entries.
ghost use Rattle.std.specs.Prelude.{◌≡◌, ◌+◌, ◌*◌, ◌<◌, ◌≤◌, length};
ghost use Rattle.std.proofs.lemmas.List.Edits.{sets};
ghost use Rattle.parameters.specs.Sets.{set_of};
ghost use Rattle.arrays.specs.Arrays.{Small};
ghost use Rattle.heads.specs.Heads.{head_length, bytes16};
ghost use Rattle.bundles.specs.Bundles.{longest_bundle, stop_length, entry_length, entry_start, entry_bytes, entries_bytes, bundle_of, entry_is};
ghost use Rattle.bundles.specs.Calls.{entries_given};

use bundles::{FIRST_ENTRY, STOP_BYTES, entry_length};
use head_writing::write_head;
use heads::HEAD_BYTES;
use heads::kinds::Kind;
use parameters::CheckedParameters;
use refusals::Refusal;
use stored_numbers::write_numbers;

// One entry: its stop, then its array.
fn write_entry(stop: u16, array: &[i32], out: &mut [u8])
    requires { (length out.old ≡ stop_length + 2 * length array.now) × Small array.now }
    ensures { out.new ≡ entry_bytes (entry_is stop array.now) }
{
    out[..STOP_BYTES].copy_from_slice(&stop.to_be_bytes());
    write_numbers(array, &mut out[STOP_BYTES..]);
}

// All entries, to the bytes behind the count.
fn write_entries(n: u32, stops: &[u16], numbers: &[i32], out: &mut [u8])
    requires numbers_len { (length numbers.now ≡ 2 * n * length stops.now) × (length out.old ≡ entry_length n * length stops.now) }
    requires out_len_bound { (length out.old ≤ longest_bundle) × Small numbers.now }
    ensures { out.new ≡ entries_bytes (entries_given n stops.now numbers.now) }
{
    let width = 2 * (n as usize);
    let entry_bytes = entry_length(n);
    for (k, stop) in stops.iter().enumerate() {
        let from = width * k;
        let at = entry_bytes * k;
        write_entry(
            *stop,
            &numbers[from..from + width],
            &mut out[at..at + entry_bytes],
        );
    }
}

// "a 16-bit count", behind the head.
fn write_count(count: usize, file: &mut [u8])
    requires { (count < 65536) × (head_length + 1 < length file.old) }
    ensures { file.new ≡ sets file.old head_length (bytes16 count) }
{
    file[HEAD_BYTES..FIRST_ENTRY].copy_from_slice(&(count as u16).to_be_bytes());
}

pub(crate) fn write_file(p: CheckedParameters, stops: &[u16], numbers: &[i32], file: &mut [u8])
    requires numbers_len { length numbers.now ≡ 2 * p.parameters.n * length stops.now }
    requires file_len { (length file.old ≡ entry_start p.parameters.n (length stops.now)) × (length file.old ≤ longest_bundle) × Small numbers.now }
    ensures { file.new ≡ bundle_of (set_of p.parameters) (entries_given p.parameters.n stops.now numbers.now) }
{
    // Nothing is refused: the kind is known, and the parameters and the length have passed.
    let _ = write_head(Kind::Bundle as u32, p.parameters, file);
    write_count(stops.len(), file);
    write_entries(p.parameters.n, stops, numbers, &mut file[FIRST_ENTRY..]);
}
