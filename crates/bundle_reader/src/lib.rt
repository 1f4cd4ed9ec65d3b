// A reader that is given a bundle once and walks its entries.
// All refusals come when the reader is made. A step hands out a part of the caller's own bytes, and no copy.

#![tactic(auto)]

ghost use Rattle.std.specs.Prelude.{◌≡◌};
ghost use Rattle.refusals.specs.Outcomes.{outcome};
ghost use Rattle.parameters.specs.Sets.{made};
ghost use Rattle.heads.specs.Heads.{head_of};
ghost use Rattle.bundles.specs.Calls.{making_reader};
ghost use Rattle.bundles.specs.Steps.{stop_at, part_at, next_at, start_of};

use bundle_checks::{Start, begin};
use bundle_steps::{array_at, next_at, stop_at};
use parameters::Parameters;
use refusals::Refusal;

// The bundle, the place of the next entry, and the bundle's parameters or its first refusal. After a refusal no entry is left.
#[derive(Clone, Copy)]
pub struct Reader<'a> {
    pub bytes: &'a [u8],
    pub at: usize,
    pub made: Result<Parameters, Refusal>,
}

// What a step hands out: a stop and the part of the bundle that is its sealed array, or that no entry is left.
#[derive(Clone, Copy)]
pub struct Entry<'a> {
    pub stop: Option<u32>,
    pub array: &'a [u8],
}

pub fn make_reader<'a>(bytes: &'a [u8]) -> Reader<'a>
    ensures { (result.bytes ≡ bytes.entry) × (result.at ≡ start_of bytes.now) × (made result.made ≡ making_reader bytes.now) }
{
    let Start { at, made } = begin(bytes);
    Reader { bytes, at, made }
}

// What stands where the reader is.
pub fn current<'a>(reader: Reader<'a>) -> Entry<'a>
    ensures { (result.stop ≡ stop_at reader.entry.bytes.now reader.entry.at) × (result.array.now ≡ part_at reader.entry.bytes.now reader.entry.at) }
{
    Entry {
        stop: stop_at(reader.bytes, reader.at),
        array: array_at(reader.bytes, reader.at),
    }
}

// The reader at the next entry; past the end it stays where it is.
pub fn next<'a>(reader: Reader<'a>) -> Reader<'a>
    ensures { (result.bytes ≡ reader.entry.bytes) × (result.at ≡ next_at reader.entry.bytes.now reader.entry.at) × (result.made ≡ reader.entry.made) }
{
    Reader {
        at: next_at(reader.bytes, reader.at),
        ..reader
    }
}
