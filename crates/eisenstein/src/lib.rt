// The ring Z[ω]: its definitions and laws, the six units, the norm, the limits of a value and of a modulus, and one value reduced modulo 2.
// Its code reduces nothing modulo q. Arrays of values and parameter sets are not this crate's business.

#![tactic(auto)]

ghost use Rattle.std.specs.Prelude.{◌≡◌, ◌≤◌, ◌%◌, ◌^◌, ltb, eqb, pos, nat_abs, ◌<ℤ◌};
ghost use Rattle.eisenstein.specs.Values.{value, 𝟘, norm, unit, same};
ghost use Rattle.eisenstein.specs.Reduction.{mod2, bit};
ghost use Rattle.eisenstein.specs.Calls.{beyond, reduce2, answered};

use refusals::Refusal;

// A value a + bω of Z[ω], by its parts.
#[derive(Clone, Copy)]
pub struct Pair {
    pub a: i32,
    pub b: i32,
}

// Document 01's units, in its order.
const UNITS: [Pair; 6] = [
    Pair { a: 1, b: 0 },
    Pair { a: 1, b: 1 },
    Pair { a: 0, b: 1 },
    Pair { a: -1, b: 0 },
    Pair { a: -1, b: -1 },
    Pair { a: 0, b: -1 },
];

// The unit of a number, taken modulo 6.
pub fn unit(number: usize) -> Pair
    ensures { value result.a result.b ≡ unit (number % 6) }
{
    UNITS[number % 6]
}

// A value whose parts need more room.
#[derive(Clone, Copy)]
pub struct Wide {
    pub a: i64,
    pub b: i64,
}

fn wide_norm(a: i64, b: i64) -> i64
    requires { (nat_abs a ≤ 2 ^ 30) × (nat_abs b ≤ 2 ^ 30) }
    ensures { result ≡ pos (norm (value a b)) }
{
    a * a - a * b + b * b
}

// The norm of a value whose parts are of 16 bits.
pub fn norm(a: i16, b: i16) -> u32
    ensures { result ≡ norm (value a b) }
{
    wide_norm(a as i64, b as i64) as u32
}

// Whether x is below −limit or above it.
fn outside(x: i64, limit: i64) -> bool
    requires { (pos 0 <ℤ limit) × (nat_abs limit ≤ 2 ^ 60) }
    ensures { result ≡ ltb (nat_abs limit) (nat_abs x) }
{
    x < -limit || limit < x
}

// Whether a part of (a, b) is below −limit or above it.
fn beyond(a: i64, b: i64, limit: i64) -> bool
    requires { (pos 0 <ℤ limit) × (nat_abs limit ≤ 2 ^ 60) }
    ensures { result ≡ beyond (nat_abs limit) (value a b) }
{
    outside(a, limit) || outside(b, limit)
}

// Whether (a, b) is zero.
pub fn is_zero(a: i64, b: i64) -> bool
    ensures { result ≡ same (value a b) 𝟘 }
{
    a == 0 && b == 0
}

// Whether x is odd.
pub fn odd(x: i64) -> bool
    ensures { result ≡ eqb (bit x) 1 }
{
    x % 2 != 0
}

// The remainder of (a, b) modulo 2.
pub fn remainder_2(a: i64, b: i64) -> Pair
    ensures { value result.a result.b ≡ mod2 (value a b) }
{
    if odd(a) {
        if odd(b) {
            return Pair { a: -1, b: -1 };
        }
        return Pair { a: 1, b: 0 };
    }
    if odd(b) {
        return Pair { a: 0, b: 1 };
    }
    Pair { a: 0, b: 0 }
}

// A part of q is at most 4,095 in size, a part of a value 2^40.
const MODULUS_LIMIT: i64 = 4095;

const VALUE_LIMIT: i64 = 1_099_511_627_776;

// Whether a part of q = (c, d) is out of range: the condition of refusal 2.
pub fn modulus_out_of_range(c: i32, d: i32) -> bool
    ensures { result ≡ beyond 4095 (value c d) }
{
    beyond(c as i64, d as i64, MODULUS_LIMIT)
}

// Whether a part of the value (a, b) is out of range: the condition of refusal 22.
pub fn value_out_of_range(a: i64, b: i64) -> bool
    ensures { result ≡ beyond (2 ^ 40) (value a b) }
{
    beyond(a, b, VALUE_LIMIT)
}

// One value (a, b) modulo 2: refusal 22, or the remainder.
pub fn reduce_2(a: i64, b: i64) -> Result<Pair, Refusal>
    ensures { answered result ≡ reduce2 (value a b) }
{
    if value_out_of_range(a, b) {
        return Err(Refusal::ValueOutOfRange);
    }
    Ok(remainder_2(a, b))
}
