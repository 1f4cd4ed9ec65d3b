// The refusals of sealing: the first that applies, in document 01's order.
// It seals nothing.

#![tactic(auto)]

ghost use Rattle.std.specs.Prelude.{◌≡◌, ◌++◌};
ghost use Rattle.refusals.specs.Outcomes.{outcome};
ghost use Rattle.refusals.specs.Numbers.{answered};
ghost use Rattle.parameters.specs.Sets.{set_of, parameter_checks};
ghost use Rattle.etru.specs.Calls.{sealing_checks};

use array_sets::{ArraySet, check_array};
use parameters::Parameters;
use refusals::Refusal;

// Those of the parameter set, 7 for all lengths, then h, φ and the message.
pub fn sealing_refusal(
    p: Parameters,
    h: &[i32],
    phi: &[i32],
    message: &[u8],
    room: usize,
) -> Result<(), Refusal>
    ensures { answered result ≡ outcome (parameter_checks (set_of p) ++ sealing_checks (set_of p) h.now phi.now message.now room) tt }
{
    p.check()?;
    let lengths = packing::full_with_message(p.n, message.len(), h.len(), phi.len(), room);
    Refusal::WrongLength.when(!lengths)?;
    check_array(p, ArraySet::ReducedModuloQ, h)?;
    check_array(p, ArraySet::Phi, phi)?;
    Refusal::SpareBitSet.when(packing::spare_bit_set(p.n, message))
}
