// The tests of an array that its sets are made of: so many units, units in whole triples, and being reduced modulo 2 and modulo q.
// It knows no parameter set, and refuses nothing.
// No function relies on a length, on N or on a modulus.
// The parts c and d of q are handed on one by one, as a parameter set has them and C: a pair would be made for the call and taken apart in it.

#![tactic(auto)]

ghost use Rattle.std.specs.Prelude.{◌≡◌, not, ◌&&◌, leb, length};
ghost use Rattle.eisenstein.specs.Values.{value, 𝟘, same};
ghost use Rattle.eisenstein.specs.Calls.{beyond};
ghost use Rattle.polynomials.specs.Polynomials.{coefficient, units_only, whole_triples, reduced_q, reduced2};
ghost use Rattle.arrays.specs.Arrays.{full};

mod scans;

use array_limits::zeros_and_units;
use eisenstein::{is_zero, modulus_out_of_range};

// Whether x is an array of N coefficients, N at most 1,024, of which exactly t are not zero, each a unit.
pub fn units_only(x: &[i32], n: u32, t: u32) -> bool
    ensures { result ≡ (leb n 1024 && (full n (length x.now) && units_only n t (coefficient x.now))) }
{
    zeros_and_units(x, n) && scans::count_nonzero(x, n as usize) == t as usize
}

// The same of s, with equally many of units 0, 2 and 4, and equally many of units 1, 3 and 5.
pub fn whole_triples(x: &[i32], n: u32, s: u32) -> bool
    ensures { result ≡ (leb n 1024 && (full n (length x.now) && whole_triples n s (coefficient x.now))) }
{
    units_only(x, n, s) && scans::in_triples(x, n as usize)
}

// Whether x is an array of N coefficients that are reduced modulo q = (c, d), where 2 and 21 do not refuse q.
pub fn reduced_modulo_q(x: &[i32], n: u32, c: i32, d: i32) -> bool
    ensures { result ≡ (full n (length x.now) && (not (beyond 4095 (value c d)) && (not (same (value c d) 𝟘) && reduced_q n (value c d) (coefficient x.now)))) }
{
    x.len() == 2 * (n as usize)
        && !modulus_out_of_range(c, d)
        && !is_zero(i64::from(c), i64::from(d))
        && scans::all_reduced_modulo_q(x, n as usize, c, d)
}

// Whether the first N coefficients are reduced modulo 2.
pub fn reduced_modulo_2(x: &[i32], n: u32) -> bool
    ensures { result ≡ reduced2 n (coefficient x.now) }
{
    scans::all_reduced_modulo_2(x, n as usize)
}
