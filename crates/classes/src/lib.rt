// The four classes modulo 2 by their numbers: 0 for 0, 1 for 1, 2 for ω, 3 for −1 − ω. Their products stand in a table.
// It knows no array and forms no convolution.
// No function relies on its caller.

#![tactic(auto)]

ghost use Rattle.std.specs.Prelude.{◌≡◌, map, ◌<◌};
ghost use Rattle.eisenstein.specs.Values.{value};
ghost use Rattle.eisenstein.specs.Reduction.{bit};
ghost use Rattle.classes.specs.Classes.{remainders, class_of, products};
ghost use Rattle.classes.specs.Pairs.{value_of};

use eisenstein::Pair;

// Their numbers.
const ZERO: u8 = 0;

const ONE: u8 = 1;

const OMEGA: u8 = 2;

// −1 − ω, which is ω².
const OMEGA_2: u8 = 3;

// The sixteen products, in the order 0, 1, ω, −1 − ω: in row i, entry j is the class of class i times class j.
const PRODUCTS: [[u8; 4]; 4] = [
    [ZERO, ZERO, ZERO, ZERO],
    [ZERO, ONE, OMEGA, OMEGA_2],
    [ZERO, OMEGA, OMEGA_2, ONE],
    [ZERO, OMEGA_2, ONE, OMEGA],
];

// The table by value, for whoever multiplies many classes: it is laid out once, and then read at two class numbers.
pub fn products() -> [[u8; 4]; 4]
    ensures { result ≡ products }
{
    PRODUCTS
}

// The remainders modulo 2, one of each class, in the same order.
const REMAINDERS: [Pair; 4] = [
    Pair { a: 0, b: 0 },
    Pair { a: 1, b: 0 },
    Pair { a: 0, b: 1 },
    Pair { a: -1, b: -1 },
];

// These by value, in the same way.
pub fn remainders() -> [Pair; 4]
    ensures { map value_of result ≡ remainders }
{
    REMAINDERS
}

// The last bit of a number.
fn bit(x: i32) -> u8
    ensures { (result ≡ bit x) × (result < 2) }
{
    u8::from(eisenstein::odd(i64::from(x)))
}

// The class of (a, b).
pub fn class_of(a: i32, b: i32) -> u8
    ensures { result ≡ class_of (value a b) }
{
    bit(a) + 2 * bit(b)
}
