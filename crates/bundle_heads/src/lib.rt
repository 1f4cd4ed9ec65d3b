// The head of a bundle: its parameters and its count, which tell how long it is and what to lend for its entries.
// It works on lent bytes, and looks at no entry.

#![tactic(auto)]

ghost use Rattle.std.specs.Prelude.{◌≡◌, ◌<◌};
ghost use Rattle.parameters.specs.Sets.{made};
ghost use Rattle.heads.specs.Heads.{head_of};
ghost use Rattle.bundles.specs.Bundles.{count_of};
ghost use Rattle.bundles.specs.Calls.{reading_parameters};

use bundles::right_length;
use heads::HEAD_BYTES;
use heads::bytes::unsigned_at;
use heads::kinds::Kind;
use parameters::Parameters;
use refusals::Refusal;

// "6–7: N", of any bytes.
pub fn coefficient_count(file: &[u8]) -> u32
    ensures { (result ≡ (head_of file.now).N) × (result < 65536) }
{
    unsigned_at(file, 6)
}

// "a 16-bit count", of any bytes.
pub fn entry_count(file: &[u8]) -> u32
    ensures { (result ≡ count_of file.now) × (result < 65536) }
{
    unsigned_at(file, HEAD_BYTES)
}

// The parameters of a bundle whose head, count and length are right.
pub fn read_bundle_head(file: &[u8]) -> Result<Parameters, Refusal>
    ensures { made result ≡ reading_parameters file.now }
{
    let p = head_reading::read_head(Kind::Bundle as u32, file)?;
    // 7 for the bundle's own length.
    if !right_length(p.n, entry_count(file) as usize, file.len()) {
        return Err(Refusal::WrongLength);
    }
    Ok(p)
}
