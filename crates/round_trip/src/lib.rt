// Demand 3 of the calls: the library's own key check, sealing and opening, one after another on lent arrays.
// It uses only the public contracts of the three calls, and adds nothing to the library.
// Any key that is accepted, any ephemeral of its set and any message come back as exactly that message, with no refusal,
// and two messages that are sealed to equal arrays are equal.
// The arrays of a key are handed on one by one, as C lends them: a struct of references would be made for the call and taken apart in it.

#![tactic(auto)]

ghost use Rattle.std.specs.Prelude.{◌≡◌, length};
ghost use Rattle.refusals.specs.Outcomes.{Gives, number, written};
ghost use Rattle.refusals.specs.Numbers.{answered};
ghost use Rattle.parameters.specs.Sets.{set_of};
ghost use Rattle.packing.specs.Messages.{message_bytes};
ghost use Rattle.etru.specs.Calls.{key_check, sealing, opening};
ghost use Rattle.round_trip.specs.RoundTrip.{next, checked_sealing, round_trip, sealing_twice, checked_sealing_twice, Lent};

use parameters::Parameters;
use refusals::Refusal;

fn seal_and_open(
    p: Parameters,
    f: &[i32],
    f2: &[i32],
    h: &[i32],
    phi: &[i32],
    message: &[u8],
    e: &mut [i32],
    opened: &mut [u8],
) -> Result<(), Refusal>
    ensures e_after { e.new ≡ written (sealing (set_of p) h.now phi.now message.now (length e.old)) e.old }
    ensures gives { Gives (next (sealing (set_of p) h.now phi.now message.now (length e.old))
        (λ x. opening (set_of p) f.now f2.now x (length opened.old))) (number (answered result)) opened.old opened.new }
{
    sealing::seal(p, h, phi, message, e)?;
    unsealing::open(p, f, f2, e, opened)
}

// h, e and opened are lent for the public key, the sealed array and the message that comes back.
pub fn check_seal_open(
    p: Parameters,
    f: &[i32],
    f2: &[i32],
    fq: &[i32],
    g: &[i32],
    phi: &[i32],
    message: &[u8],
    h: &mut [i32],
    e: &mut [i32],
    opened: &mut [u8],
) -> Result<(), Refusal>
    ensures h_after { h.new ≡ written (key_check (set_of p) f.now f2.now fq.now g.now (length h.old)) h.old }
    ensures e_after { e.new ≡ written (checked_sealing (set_of p) f.now f2.now fq.now g.now
        phi.now message.now (length h.old) (length e.old)) e.old }
    ensures gives { Gives (round_trip (set_of p) f.now f2.now fq.now g.now phi.now message.now
        (length h.old) (length e.old) (length opened.old)) (number (answered result)) opened.old opened.new }
    ensures result_value { Lent (set_of p) f.now f2.now fq.now g.now phi.now message.now h.old e.old
        → length opened.old ≡ message_bytes p.n → (number (answered result) ≡ 0) × (opened.new ≡ message.now) }
{
    key_check::check_key(p, f, f2, fq, g, h)?;
    seal_and_open(p, f, f2, h, phi, message, e, opened)
}

fn seal_twice(
    p: Parameters,
    h: &[i32],
    phi1: &[i32],
    message1: &[u8],
    phi2: &[i32],
    message2: &[u8],
    e1: &mut [i32],
    e2: &mut [i32],
) -> Result<(), Refusal>
    ensures e1_after { e1.new ≡ written (sealing (set_of p) h.now phi1.now message1.now (length e1.old)) e1.old }
    ensures gives { Gives (sealing_twice (set_of p) h.now phi1.now phi2.now message1.now message2.now
        (length e1.old) (length e2.old)) (number (answered result)) e2.old e2.new }
{
    sealing::seal(p, h, phi1, message1, e1)?;
    sealing::seal(p, h, phi2, message2, e2)
}

// h, e1 and e2 are lent for the public key and the two sealed arrays.
pub fn check_seal_twice(
    p: Parameters,
    f: &[i32],
    f2: &[i32],
    fq: &[i32],
    g: &[i32],
    phi1: &[i32],
    message1: &[u8],
    phi2: &[i32],
    message2: &[u8],
    h: &mut [i32],
    e1: &mut [i32],
    e2: &mut [i32],
) -> Result<(), Refusal>
    ensures h_after { h.new ≡ written (key_check (set_of p) f.now f2.now fq.now g.now (length h.old)) h.old }
    ensures e1_after { e1.new ≡ written (checked_sealing (set_of p) f.now f2.now fq.now g.now
        phi1.now message1.now (length h.old) (length e1.old)) e1.old }
    ensures gives { Gives (checked_sealing_twice (set_of p) f.now f2.now fq.now g.now phi1.now phi2.now
        message1.now message2.now (length h.old) (length e1.old) (length e2.old))
        (number (answered result)) e2.old e2.new }
    ensures result_value { Lent (set_of p) f.now f2.now fq.now g.now phi1.now message1.now h.old e1.old
        → Lent (set_of p) f.now f2.now fq.now g.now phi2.now message2.now h.old e2.old
        → (number (answered result) ≡ 0) × (e1.new ≡ e2.new → message1.now ≡ message2.now) }
{
    key_check::check_key(p, f, f2, fq, g, h)?;
    seal_twice(p, h, phi1, message1, phi2, message2, e1, e2)
}
