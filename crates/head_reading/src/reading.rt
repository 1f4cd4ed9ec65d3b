// A head is read: its mark, version and kind, and the parameters.
ghost use Rattle.std.specs.Prelude.{◌≡◌, ◌&&◌, ◌≤◌, eqb, length, get_or};
ghost use Rattle.refusals.specs.Outcomes.{outcome};
ghost use Rattle.refusals.specs.Numbers.{answered};
ghost use Rattle.parameters.specs.Sets.{parameters, made};
ghost use Rattle.heads.specs.Kinds.{known_kind};
ghost use Rattle.heads.specs.Heads.{head_length, head_of};
ghost use Rattle.head_reading.specs.Calls.{marked, version_one, head_checks};

use crate::bytes::signed_at;
use heads::bytes::unsigned_at;
use heads::kinds::Kind;
use heads::{HEAD_BYTES, VERSION};
use parameters::Parameters;
use refusals::Refusal;

fn marked_eiz(file: &[u8]) -> bool
    requires { head_length ≤ length file.now }
    ensures { result ≡ marked file.now }
{
    file.starts_with(b"EIZ")
}

fn version_one(file: &[u8]) -> bool
    requires { head_length ≤ length file.now }
    ensures { result ≡ version_one file.now }
{
    unsigned_at(file, 3) == VERSION
}

fn kind_wanted(kind: u32, file: &[u8]) -> bool
    requires { head_length ≤ length file.now }
    ensures { result ≡ (known_kind kind && eqb (get_or file.now 5 0) kind) }
{
    Kind::try_from(kind).is_ok() && u32::from(file[5]) == kind
}

pub(crate) fn head_refusal(kind: u32, file: &[u8]) -> Result<(), Refusal>
    ensures { answered result ≡ outcome (head_checks kind file.now) tt }
{
    if file.len() < HEAD_BYTES {
        return Err(Refusal::HeadTooShort);
    }
    if !marked_eiz(file) {
        return Err(Refusal::MarkNotEiz);
    }
    if !version_one(file) {
        return Err(Refusal::VersionNotOne);
    }
    if !kind_wanted(kind, file) {
        return Err(Refusal::KindNotWanted);
    }
    Ok(())
}

pub(crate) fn head_parameters(file: &[u8]) -> Result<Parameters, Refusal>
    requires { head_length ≤ length file.now }
    ensures { made result ≡ parameters (head_of file.now) }
{
    let n = unsigned_at(file, 6);
    let c = signed_at(file, 8);
    let d = signed_at(file, 10);
    let s = unsigned_at(file, 12);
    let t = unsigned_at(file, 14);
    Parameters::new(n, c, d, s, t)
}
