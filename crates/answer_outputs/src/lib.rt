// Answers handed on to single outputs: a remainder's parts, a parameter set's numbers, or a message's length.
// It decides nothing. A refusal is its number alone, and writes to no output.

#![tactic(auto)]

ghost use Rattle.refusals.specs.Outcomes.{Gives};
ghost use Rattle.eisenstein.specs.Values.{value};
ghost use Rattle.eisenstein.specs.Calls.{answered};
ghost use Rattle.parameters.specs.Sets.{set, made};
ghost use Rattle.refusals.specs.Numbers.{answered as answered_length};

use eisenstein::Pair;
use parameters::Parameters;
use refusals::Refusal;

// Hands an answer on: a remainder to the outputs, or a refusal's number alone.
pub fn give(answer: Result<Pair, Refusal>, ra: &mut i32, rb: &mut i32) -> u32
    ensures { Gives (answered answer) result (value ra.old rb.old) (value ra.new rb.new) }
{
    match answer {
        Ok(r) => {
            *ra = r.a;
            *rb = r.b;
            0
        }
        Err(refusal) => refusal.number(),
    }
}

// Hands parameters on to the outputs, or a refusal's number alone.
pub fn give_parameters(
    answer: Result<Parameters, Refusal>,
    n: &mut u32,
    c: &mut i32,
    d: &mut i32,
    s: &mut u32,
    t: &mut u32,
) -> u32
    ensures { Gives (made answer) result
        (set n.old c.old d.old s.old t.old)
        (set n.new c.new d.new s.new t.new) }
{
    match answer {
        Ok(p) => {
            *n = p.n;
            *c = p.c;
            *d = p.d;
            *s = p.s;
            *t = p.t;
            0
        }
        Err(refusal) => refusal.number(),
    }
}

// Hands the length of a message on to the output, or a refusal's number alone.
pub fn give_length(answer: Result<usize, Refusal>, used: &mut usize) -> u32
    ensures { Gives (answered_length answer) result used.old used.new }
{
    match answer {
        Ok(length) => {
            *used = length;
            0
        }
        Err(refusal) => refusal.number(),
    }
}
