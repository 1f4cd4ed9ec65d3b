// One value of Z[ω] reduced modulo q, with its refusals, and its remainder stored in an array.
// Whether a value is its own remainder is not asked here: that needs no division.

#![tactic(auto)]

ghost use Rattle.std.specs.Prelude.{◌≡◌, cond, ◌≢◌, ◌≤◌, ◌^◌, pos, nat_abs, ◌+ℤ◌, ◌-ℤ◌, ◌<ℤ◌};
ghost use Rattle.std.specs.Int.Signed.{shr_z};
ghost use Rattle.refusals.specs.Outcomes.{written, Passes};
ghost use Rattle.eisenstein.specs.Values.{value, 𝟘, norm as norm_of};
ghost use Rattle.eisenstein.specs.Reduction.{better, best, corner, mod_q};
ghost use Rattle.eisenstein.specs.Calls.{answered};
ghost use Rattle.remainders.specs.Calls.{reduction_checks, reduce_q, with_coefficient};
ghost use Rattle.remainders.specs.Conditions.{Differ};

mod checks;

use crate::checks::reduction_refusal;
use eisenstein::{Pair, Wide, norm};
use refusals::Refusal;

// x divided by n, rounded down. `div_euclid` asks of n whether it is negative too, which is known here.
fn floor_quotient(x: i64, n: i64) -> i64
    requires { (nat_abs x ≤ 2 ^ 60) × (pos 0 <ℤ n) }
    ensures { result ≡ shr_z x (nat_abs n) }
{
    if x < 0 { -1 - (-1 - x) / n } else { x / n }
}

// A value that may be the remainder, and its norm less that of the first corner.
#[derive(Clone, Copy)]
struct Candidate {
    a: i64,
    b: i64,
    excess: i64,
}

impl Candidate {
    // Whether it is better than s, by the rule of remainders. Their norms differ as their excesses do.
    // One test a line, in the order of the rule: a comparison of tuples would want the parts turned round.
    fn is_better_than(self, s: Candidate) -> bool
        requires { Differ (value self.a self.b) self.excess (value s.a s.b) s.excess }
        ensures { result ≡ better (value self.a self.b) (value s.a s.b) }
    {
        if self.excess < s.excess {
            return true;
        }
        if s.excess < self.excess {
            return false;
        }
        if s.a < self.a {
            return true;
        }
        if self.a < s.a {
            return false;
        }
        s.b < self.b
    }

    // The better of it and s.
    fn best(self, s: Candidate) -> Candidate
        requires { Differ (value self.a self.b) self.excess (value s.a s.b) s.excess }
        ensures { (value result.a result.b ≡ best (value self.a self.b) (value s.a s.b)) × (result.excess ≡ cond (better (value s.a s.b) (value self.a self.b)) s.excess self.excess) }
    {
        if s.is_better_than(self) { s } else { self }
    }
}

// A modulus (c, d) that values are reduced by, and its norm.
#[derive(Clone, Copy)]
struct Modulus {
    c: i64,
    d: i64,
    norm: i64,
    ghost c_in_range: { nat_abs c ≤ 4095 },
    ghost d_in_range: { nat_abs d ≤ 4095 },
    ghost nonzero: { value c d ≢ 𝟘 },
    ghost norm_is: { norm ≡ pos (norm_of (value c d)) },
}

impl Modulus {
    // The modulus (c, d), which neither refusal 2 nor 21 meets. Its parts come as i64, since with the casts in here LLVM computes c − d twice.
    fn new(c: i64, d: i64) -> Self
        requires { (nat_abs c ≤ 4095) × (nat_abs d ≤ 4095) × (value c d ≢ 𝟘) }
        ensures { value result.c result.d ≡ value c d }
    {
        Modulus {
            c,
            d,
            norm: norm(c as i16, d as i16) as i64,
        }
    }

    // x less q·(z, w), for q this modulus and z, w the parts of x·conj(q) over its norm, rounded down. No part of q is above the norm, so its product with z or w is little above what was divided.
    fn first_corner(self, x: Wide) -> Wide
        requires { (nat_abs x.a ≤ 2 ^ 40) × (nat_abs x.b ≤ 2 ^ 40) }
        ensures { (value result.a result.b ≡ corner (value self.c self.d) (value x.a x.b) 0 0) × (nat_abs result.a ≤ 2 ^ 14) × (nat_abs result.b ≤ 2 ^ 14) }
    {
        let z = floor_quotient(x.a * (self.c - self.d) + x.b * self.d, self.norm);
        let w = floor_quotient(x.b * self.c - x.a * self.d, self.norm);
        let wd = w * self.d;
        Wide {
            a: x.a - (z * self.c - wd),
            b: x.b - (z * self.d + w * self.c - wd),
        }
    }

    // The best of the four corners, of which r is the first: the others are less q, qω and q(1 + ω), for q this modulus.
    // The norm of r − w is the norm of r, plus that of w, less the trace of r·conj(w): x and y are the traces for q and qω, and x + y is that for q(1 + ω).
    fn best_corner(self, r: Wide) -> Wide
        requires { (nat_abs r.a ≤ 2 ^ 14) × (nat_abs r.b ≤ 2 ^ 14) }
        ensures { value result.a result.b ≡ best (best (value r.a r.b) (value (r.a -ℤ self.c) (r.b -ℤ self.d))) (best (value (r.a +ℤ self.d) ((r.b -ℤ self.c) +ℤ self.d)) (value ((r.a -ℤ self.c) +ℤ self.d) (r.b -ℤ self.c))) }
    {
        let e = self.c + self.c - self.d;
        let x = r.a * e + r.b * (self.d + self.d - self.c);
        let y = r.b * e - r.a * (self.c + self.d);
        let first = Candidate {
            a: r.a,
            b: r.b,
            excess: 0,
        };
        let lower = first.best(Candidate {
            a: r.a - self.c,
            b: r.b - self.d,
            excess: self.norm - x,
        });
        let third = Candidate {
            a: r.a + self.d,
            b: r.b - self.c + self.d,
            excess: self.norm - y,
        };
        let upper = third.best(Candidate {
            a: r.a - self.c + self.d,
            b: r.b - self.c,
            excess: self.norm - x - y,
        });
        let found = lower.best(upper);
        Wide {
            a: found.a,
            b: found.b,
        }
    }

    // The remainder of x, whose parts fit 32 bits.
    fn remainder(self, x: Wide) -> Pair
        requires { (nat_abs x.a ≤ 2 ^ 40) × (nat_abs x.b ≤ 2 ^ 40) }
        ensures { value result.a result.b ≡ mod_q (value self.c self.d) (value x.a x.b) }
    {
        let r = self.best_corner(self.first_corner(x));
        Pair {
            a: r.a as i32,
            b: r.b as i32,
        }
    }
}

// The remainder of (a, b) modulo (c, d), where nothing is refused.
fn remainder_of(a: i64, b: i64, c: i32, d: i32) -> Pair
    requires { Passes (reduction_checks (value c d) (value a b)) }
    ensures { value result.a result.b ≡ mod_q (value c d) (value a b) }
{
    Modulus::new(c as i64, d as i64).remainder(Wide { a, b })
}

// One value (a, b) modulo q = (c, d): refusals 2, 21, 22, or the remainder.
pub fn reduce_q(a: i64, b: i64, c: i32, d: i32) -> Result<Pair, Refusal>
    ensures { answered result ≡ reduce_q (value c d) (value a b) }
{
    reduction_refusal(a, b, c, d)?;
    Ok(remainder_of(a, b, c, d))
}

// The remainder of (a, b) modulo q = (c, d), and zero where `reduce_q` refuses.
pub fn remainder_q(a: i64, b: i64, c: i32, d: i32) -> Pair
    ensures { value result.a result.b ≡ written (reduce_q (value c d) (value a b)) 𝟘 }
{
    match reduction_refusal(a, b, c, d) {
        Ok(()) => remainder_of(a, b, c, d),
        Err(_) => Pair { a: 0, b: 0 },
    }
}

// Stores the remainder of v modulo q = (c, d) as coefficient i of an array, and zero where `reduce_q` refuses. Where the array has no such coefficient it stays as it is.
pub fn store_remainder(out: &mut [i32], i: usize, v: Wide, c: i32, d: i32)
    ensures { out.new ≡ with_coefficient i (written (reduce_q (value c d) (value v.a v.b)) 𝟘) out.old }
{
    if out.len() / 2 <= i {
        return;
    }
    let r = remainder_q(v.a, v.b, c, d);
    out[2 * i] = r.a;
    out[2 * i + 1] = r.b;
}
