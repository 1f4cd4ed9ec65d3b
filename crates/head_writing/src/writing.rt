// A head is written.
ghost use Rattle.std.specs.Prelude.{◌≡◌, [], ◌∷◌, ◌++◌, ◌+◌, ◌<◌, ◌≤◌, ltb, length, drop};
ghost use Rattle.std.proofs.lemmas.List.Edits.{sets};
ghost use Rattle.refusals.specs.Outcomes.{outcome, ◌if◌};
ghost use Rattle.parameters.specs.Checked.{checked};
ghost use Rattle.parameters.specs.Sets.{set_of, parameter_checks};
ghost use Rattle.heads.specs.Kinds.{number_of_kind};
ghost use Rattle.heads.specs.Heads.{head_length, version, bytes16, head_bytes};

use heads::bytes::bits_of;
use heads::kinds::Kind;
use heads::{HEAD_BYTES, VERSION};
use parameters::{CheckedParameters, Parameters};
use refusals::Refusal;

// What is refused behind the kind: the parameters, then the room. A set that is not refused is handed on as one that is accepted.
pub(crate) fn writing_refusal(p: Parameters, room: usize) -> Result<CheckedParameters, Refusal>
    ensures { checked result ≡ outcome (parameter_checks (set_of p) ++ (7 if ltb room head_length ∷ [])) p }
{
    let p = p.checked()?;
    if room < HEAD_BYTES {
        return Err(Refusal::WrongLength);
    }
    Ok(p)
}

// A big-endian 16-bit number, at byte k.
fn write_number(n: u32, k: usize, file: &mut [u8])
    requires { (n < 65536) × (k + 1 < length file.old) }
    ensures { file.new ≡ sets file.old k (bytes16 n) }
{
    file[k..k + 2].copy_from_slice(&(n as u16).to_be_bytes());
}

// Bytes 0 to 5.
fn write_mark(kind: Kind, file: &mut [u8])
    requires { head_length ≤ length file.old }
    ensures { file.new ≡ sets file.old 0 (69 ∷ 73 ∷ 90 ∷ bytes16 version ++ (number_of_kind kind ∷ [])) }
{
    file[..3].copy_from_slice(b"EIZ");
    write_number(VERSION, 3, file);
    file[5] = kind.number() as u8;
}

pub(crate) fn write_bytes(kind: Kind, p: CheckedParameters, file: &mut [u8])
    requires { head_length ≤ length file.old }
    ensures { file.new ≡ head_bytes (number_of_kind kind) (set_of p.parameters) ++ drop head_length file.old }
{
    let Parameters { n, c, d, s, t } = p.parameters;
    write_mark(kind, file);
    write_number(n, 6, file);
    write_number(bits_of(c as i16), 8, file);
    write_number(bits_of(d as i16), 10, file);
    write_number(s, 12, file);
    write_number(t, 14, file);
}
