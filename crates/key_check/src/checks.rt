// The key check's refusals, in document 01's order: those before the inverses, then 13 and 14.
ghost use Rattle.std.specs.Prelude.{◌≡◌, ◌++◌};
ghost use Rattle.refusals.specs.Outcomes.{outcome};
ghost use Rattle.refusals.specs.Numbers.{answered};
ghost use Rattle.parameters.specs.Sets.{set_of, parameter_checks};
ghost use Rattle.etru.specs.Calls.{key_checks};

use crate::inverses::inverse_refusal;
use key_check_refusals::key_array_refusal;
use parameters::Parameters;
use refusals::Refusal;

pub(crate) fn key_refusal(
    p: Parameters,
    f: &[i32],
    f2: &[i32],
    fq: &[i32],
    g: &[i32],
    room: usize,
) -> Result<(), Refusal>
    ensures { answered result ≡ outcome (parameter_checks (set_of p) ++ key_checks (set_of p) f.now f2.now fq.now g.now room) tt }
{
    key_array_refusal(p, f, f2, fq, g, room)?;
    inverse_refusal(p, f, f2, fq)
}
