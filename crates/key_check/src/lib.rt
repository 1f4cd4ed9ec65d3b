// The key check: whether f, F2, Fq and g are a key, and its public key h.
// It makes no key, and keeps none.
// It ends with `Ok`, or with document 01's first refusal that applies, and then its output is as it came.
// At every N `check_key` takes less than 28 KiB of stack.
// The arrays of a key are handed on one by one, as C lends them: a struct of references would be made for the call and taken apart in it.

#![tactic(auto)]

ghost use Rattle.std.specs.Prelude.{length};
ghost use Rattle.refusals.specs.Outcomes.{number, Gives};
ghost use Rattle.refusals.specs.Numbers.{answered};
ghost use Rattle.parameters.specs.Sets.{set_of};
ghost use Rattle.etru.specs.Calls.{key_check};

mod checks;
mod inverses;
mod public_keys;

use parameters::Parameters;
use refusals::Refusal;

// Checks a key. The public key, Fq × g reduced modulo q, goes to h.
pub fn check_key(
    p: Parameters,
    f: &[i32],
    f2: &[i32],
    fq: &[i32],
    g: &[i32],
    h: &mut [i32],
) -> Result<(), Refusal>
    ensures { Gives (key_check (set_of p) f.now f2.now fq.now g.now (length h.old))
        (number (answered result)) h.old h.new }
{
    checks::key_refusal(p, f, f2, fq, g, h.len())?;
    public_keys::write_public_key(p, f, f2, fq, g, h);
    Ok(())
}
