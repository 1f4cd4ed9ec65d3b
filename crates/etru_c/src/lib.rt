// The interface for C. Each function returns the documents' refusal number, 0 if nothing is refused, and writes to its outputs only then.
// Only `etru_next_entry` refuses nothing, and returns whether there was an entry.
// It decides nothing: each function hands its arguments on, and `include/etru.h` is its manual.
// At every N `etru_convolve` takes at most 100 KiB of stack, `etru_open_files` 72 KiB, `etru_seal_places` 36 KiB, `etru_open`, `etru_open_short`, `etru_open_entry`, `etru_check_key` and `etru_spread_places` 28 KiB,
// `etru_seal`, `etru_seal_short`, `etru_read`, `etru_read_bundle`, `etru_begin_bundle` and `etru_write_bundle` 12 KiB, and each other function 1 KiB.

#![tactic(auto)]

ghost use Rattle.std.specs.Prelude.{◌≡◌, cond, ◌+◌, length};
ghost use Rattle.refusals.specs.Outcomes.{number, outcome, Gives};
ghost use Rattle.eisenstein.specs.Values.{value};
ghost use Rattle.eisenstein.specs.Calls.{reduce2};
ghost use Rattle.remainders.specs.Calls.{reduce_q};
ghost use Rattle.parameters.specs.Sets.{set, parameters};
ghost use Rattle.message_packing.specs.Calls.{packing};
ghost use Rattle.message_unpacking.specs.Calls.{unpacking};
ghost use Rattle.convolution.specs.Calls.{convolving};
ghost use Rattle.etru.specs.Calls.{key_check, sealing, opening};
ghost use Rattle.placed_ephemerals.specs.Calls.{spreading, places_sealing};
ghost use Rattle.head_reading.specs.Calls.{reading_head};
ghost use Rattle.files.specs.Calls.{reading, writing};
ghost use Rattle.heads.specs.Heads.{head_of};
ghost use Rattle.bundles.specs.Bundles.{stop_length, stored_at};
ghost use Rattle.bundles.specs.Calls.{bundle_checks, reading_parameters, reading_count, reading_stops, reading_numbers, writing_bundle};
ghost use Rattle.bundles.specs.Steps.{stands_at, next_at, start_of};
ghost use Rattle.entry_opening.specs.Calls.{opening_entry};
ghost use Rattle.opened_arrays.specs.Answers.{length_of, over};
ghost use Rattle.short_scheme.specs.Calls.{short_sealing, short_opening};
ghost use Rattle.opening.specs.Program.{line_writing, line_length};

use parameters::Parameters;
use placed_units::PlacedUnit;
use refusals::status;

// The remainder of (a, b) modulo q = (c, d), to ra and rb.
#[unsafe(no_mangle)]
pub extern "C" fn etru_reduce_q(a: i64, b: i64, c: i32, d: i32, ra: &mut i32, rb: &mut i32) -> u32
    ensures { Gives (reduce_q (value c d) (value a b)) result (value ra.old rb.old) (value ra.new rb.new) }
{
    answer_outputs::give(remainders::reduce_q(a, b, c, d), ra, rb)
}

// The remainder of (a, b) modulo 2, to ra and rb.
#[unsafe(no_mangle)]
pub extern "C" fn etru_reduce_2(a: i64, b: i64, ra: &mut i32, rb: &mut i32) -> u32
    ensures { Gives (reduce2 (value a b)) result (value ra.old rb.old) (value ra.new rb.new) }
{
    answer_outputs::give(eisenstein::reduce_2(a, b), ra, rb)
}

// Whether a parameter set is accepted.
#[unsafe(no_mangle)]
pub extern "C" fn etru_check_parameters(n: u32, c: i32, d: i32, s: u32, t: u32) -> u32
    ensures { result ≡ number (parameters (set n c d s t)) }
{
    let numbers = Parameters { n, c, d, s, t };
    status(numbers.check())
}

// x × y reduced modulo q, to out.
#[unsafe(no_mangle)]
pub extern "C" fn etru_convolve(
    n: u32,
    c: i32,
    d: i32,
    s: u32,
    t: u32,
    x: &[i32],
    y: &[i32],
    out: &mut [i32],
) -> u32
    ensures { Gives (convolving (set n c d s t) x.now y.now (length out.old)) result out.old out.new }
{
    let p = Parameters { n, c, d, s, t };
    status(convolution::convolve(p, x, y, out))
}

// Checks a key. The public key goes to h.
#[unsafe(no_mangle)]
pub extern "C" fn etru_check_key(
    n: u32,
    c: i32,
    d: i32,
    s: u32,
    t: u32,
    f: &[i32],
    f2: &[i32],
    fq: &[i32],
    g: &[i32],
    h: &mut [i32],
) -> u32
    ensures { Gives (key_check (set n c d s t) f.now f2.now fq.now g.now (length h.old)) result h.old h.new }
{
    let p = Parameters { n, c, d, s, t };
    status(key_check::check_key(p, f, f2, fq, g, h))
}

// Seals a message, to e.
#[unsafe(no_mangle)]
pub extern "C" fn etru_seal(
    n: u32,
    c: i32,
    d: i32,
    s: u32,
    t: u32,
    h: &[i32],
    phi: &[i32],
    message: &[u8],
    e: &mut [i32],
) -> u32
    ensures { Gives (sealing (set n c d s t) h.now phi.now message.now (length e.old)) result e.old e.new }
{
    let p = Parameters { n, c, d, s, t };
    status(sealing::seal(p, h, phi, message, e))
}

// Seals a message with the ephemeral that a list of places spreads to, to e.
#[unsafe(no_mangle)]
pub extern "C" fn etru_seal_places(
    n: u32,
    c: i32,
    d: i32,
    s: u32,
    t: u32,
    h: &[i32],
    places: &[PlacedUnit],
    message: &[u8],
    e: &mut [i32],
) -> u32
    ensures { Gives (places_sealing (set n c d s t) h.now places.now message.now (length e.old)) result e.old e.new }
{
    let p = Parameters { n, c, d, s, t };
    status(place_records::seal_places(p, h, places, message, e))
}

// Spreads a list of places, to phi.
#[unsafe(no_mangle)]
pub extern "C" fn etru_spread_places(
    n: u32,
    c: i32,
    d: i32,
    s: u32,
    t: u32,
    places: &[PlacedUnit],
    phi: &mut [i32],
) -> u32
    ensures { Gives (spreading (set n c d s t) places.now (length phi.old)) result phi.old phi.new }
{
    let p = Parameters { n, c, d, s, t };
    status(place_records::spread_places(p, places, phi))
}

// Opens a sealed array. The message goes to message.
#[unsafe(no_mangle)]
pub extern "C" fn etru_open(
    n: u32,
    c: i32,
    d: i32,
    s: u32,
    t: u32,
    f: &[i32],
    f2: &[i32],
    e: &[i32],
    message: &mut [u8],
) -> u32
    ensures { Gives (opening (set n c d s t) f.now f2.now e.now (length message.old)) result message.old message.new }
{
    let p = Parameters { n, c, d, s, t };
    status(unsealing::open(p, f, f2, e, message))
}

// Seals a short message, to e.
#[unsafe(no_mangle)]
pub extern "C" fn etru_seal_short(
    n: u32,
    c: i32,
    d: i32,
    s: u32,
    t: u32,
    h: &[i32],
    phi: &[i32],
    message: &[u8],
    e: &mut [i32],
) -> u32
    ensures { Gives (short_sealing (set n c d s t) h.now phi.now message.now (length e.old)) result e.old e.new }
{
    let p = Parameters { n, c, d, s, t };
    status(short_sealing::seal_short(p, h, phi, message, e))
}

// Opens a sealed array as a short message. It goes to the front of message, and its length to used; the bytes behind it are as they came.
#[unsafe(no_mangle)]
pub extern "C" fn etru_open_short(
    n: u32,
    c: i32,
    d: i32,
    s: u32,
    t: u32,
    f: &[i32],
    f2: &[i32],
    e: &[i32],
    message: &mut [u8],
    used: &mut usize,
) -> u32
    ensures gives { Gives (length_of (short_opening (set n c d s t) f.now f2.now e.now (length message.old))) result used.old used.new }
    ensures message_after { message.new ≡ over (short_opening (set n c d s t) f.now f2.now e.now (length message.old)) message.old }
{
    let p = Parameters { n, c, d, s, t };
    let answer = short_opening::open_short(p, f, f2, e, message);
    answer_outputs::give_length(answer, used)
}

// The polynomial that a message stands for, to m.
#[unsafe(no_mangle)]
pub extern "C" fn etru_pack(n: u32, message: &[u8], m: &mut [i32]) -> u32
    ensures { Gives (packing n message.now (length m.old)) result m.old m.new }
{
    status(message_packing::pack(n, message, m))
}

// The message that a polynomial stands for, to message.
#[unsafe(no_mangle)]
pub extern "C" fn etru_unpack(n: u32, m: &[i32], message: &mut [u8]) -> u32
    ensures { Gives (unpacking n m.now (length message.old)) result message.old message.new }
{
    status(message_unpacking::unpack(n, m, message))
}

// The parameters of a file of the wanted kind, from its head alone, to n, c, d, s and t.
#[unsafe(no_mangle)]
pub extern "C" fn etru_read_head(
    kind: u32,
    file: &[u8],
    n: &mut u32,
    c: &mut i32,
    d: &mut i32,
    s: &mut u32,
    t: &mut u32,
) -> u32
    ensures { Gives (reading_head kind file.now) result
        (set n.old c.old d.old s.old t.old)
        (set n.new c.new d.new s.new t.new) }
{
    answer_outputs::give_parameters(head_reading::read_head(kind, file), n, c, d, s, t)
}

// The arrays of a file of the wanted kind, one after another in stored order, to numbers.
#[unsafe(no_mangle)]
pub extern "C" fn etru_read(kind: u32, file: &[u8], numbers: &mut [i32]) -> u32
    ensures { Gives (reading kind file.now (length numbers.old)) result numbers.old numbers.new }
{
    status(file_reading::read(kind, file, numbers))
}

// A file of this kind, to file. The numbers are its arrays, one after another in stored order.
#[unsafe(no_mangle)]
pub extern "C" fn etru_write(
    kind: u32,
    n: u32,
    c: i32,
    d: i32,
    s: u32,
    t: u32,
    numbers: &[i32],
    file: &mut [u8],
) -> u32
    ensures { Gives (writing kind (set n c d s t) numbers.now (length file.old)) result file.old file.new }
{
    let p = Parameters { n, c, d, s, t };
    status(file_writing::write(kind, p, numbers, file))
}

// The parameters of a bundle, to n, c, d, s and t, and how many entries it has, to count: they tell what to lend for its entries.
#[unsafe(no_mangle)]
pub extern "C" fn etru_read_bundle_head(
    file: &[u8],
    n: &mut u32,
    c: &mut i32,
    d: &mut i32,
    s: &mut u32,
    t: &mut u32,
    count: &mut u32,
) -> u32
    ensures gives { Gives (reading_parameters file.now) result
        (set n.old c.old d.old s.old t.old)
        (set n.new c.new d.new s.new t.new) }
    ensures gives_2 { Gives (reading_count file.now) result count.old count.new }
{
    let answer = bundle_heads::read_bundle_head(file);
    let entries = bundle_heads::entry_count(file);
    let number = answer_outputs::give_parameters(answer, n, c, d, s, t);
    if number == 0 {
        *count = entries;
    }
    number
}

// Makes a reader: every refusal of a bundle comes here. Where its first entry stands goes to at.
#[unsafe(no_mangle)]
pub extern "C" fn etru_begin_bundle(file: &[u8], at: &mut usize) -> u32
    ensures { Gives (outcome (bundle_checks file.now) (start_of file.now)) result at.old at.new }
{
    let start = bundle_checks::begin(file);
    match start.made {
        Ok(_) => {
            *at = start.at;
            0
        }
        Err(refusal) => refusal.number(),
    }
}

// A step of a reader. Where an entry stands at the place `at` it returns 1: its stop goes to stop, the place of its sealed array to part, and at moves on.
// Past the end it returns 0 and writes nothing. What it returns is no refusal.
#[unsafe(no_mangle)]
pub extern "C" fn etru_next_entry(
    file: &[u8],
    at: &mut usize,
    stop: &mut u32,
    part: &mut usize,
) -> u32
    ensures value { (result ≡ cond (stands_at file.now at.old) 1 0) × (at.new ≡ next_at file.now at.old) }
    ensures stop_after { stop.new ≡ cond (stands_at file.now at.old)
        (stored_at (head_of file.now).N file.now at.old).stop stop.old }
    ensures part_after { part.new ≡ cond (stands_at file.now at.old) (at.old + stop_length) part.old }
{
    u32::from(bundle_steps::next_entry(file, at, stop, part))
}

// Opens an entry of a bundle: part is its sealed array, 4N of the bundle's bytes. The message goes to message.
#[unsafe(no_mangle)]
pub extern "C" fn etru_open_entry(
    n: u32,
    c: i32,
    d: i32,
    s: u32,
    t: u32,
    f: &[i32],
    f2: &[i32],
    part: &[u8],
    message: &mut [u8],
) -> u32
    ensures { Gives (opening_entry (set n c d s t) f.now f2.now part.now (length message.old)) result message.old message.new }
{
    let p = Parameters { n, c, d, s, t };
    status(entry_opening::open_entry(p, f, f2, part, message))
}

// The stops of a bundle to stops, and its arrays, one after another in stored order, to numbers.
#[unsafe(no_mangle)]
pub extern "C" fn etru_read_bundle(file: &[u8], stops: &mut [u32], numbers: &mut [i32]) -> u32
    ensures gives { Gives (reading_stops file.now (length stops.old) (length numbers.old)) result stops.old stops.new }
    ensures gives_2 { Gives (reading_numbers file.now (length stops.old) (length numbers.old)) result numbers.old numbers.new }
{
    status(bundle_reading::read_bundle(file, stops, numbers))
}

// A bundle, to file. The numbers are the arrays of its entries, one after another.
#[unsafe(no_mangle)]
pub extern "C" fn etru_write_bundle(
    n: u32,
    c: i32,
    d: i32,
    s: u32,
    t: u32,
    stops: &[u16],
    numbers: &[i32],
    file: &mut [u8],
) -> u32
    ensures { Gives (writing_bundle (set n c d s t) stops.now numbers.now (length file.old)) result file.old file.new }
{
    let p = Parameters { n, c, d, s, t };
    status(bundle_writing::write_bundle(p, stops, numbers, file))
}

// The line that the opening program prints for its input, to the front of line, and its length to used. Any input has its line, so 7 for a line that is not lent with 515 bytes is the only refusal.
#[unsafe(no_mangle)]
pub extern "C" fn etru_open_files(input: &[u8], line: &mut [u8], used: &mut usize) -> u32
    ensures gives { Gives (line_writing input.now line.old) result line.old line.new }
    ensures gives_2 { Gives (line_length input.now (length line.old)) result used.old used.new }
{
    status(opening::open_files(input, line, used))
}
