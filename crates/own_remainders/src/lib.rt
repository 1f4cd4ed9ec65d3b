// Whether a value of Z[ω] is its own remainder modulo q, decided without a division.
// It reduces nothing.

#![tactic(auto)]

ghost use Rattle.std.specs.Prelude.{◌≡◌, not, ◌&&◌, ◌≢◌, ◌≤◌, ◌^◌, nat_abs};
ghost use Rattle.eisenstein.specs.Values.{value, 𝟘, same};
ghost use Rattle.eisenstein.specs.Reduction.{mod_q};
ghost use Rattle.eisenstein.specs.Calls.{beyond};
ghost use Rattle.own_remainders.specs.Neighbours.{lead, within};

use eisenstein::{Wide, is_zero, modulus_out_of_range, norm};

// Of r and r − w, for w other than zero and where their norms are equal: 1 if r is the better one, else 0.
fn lead(w: Wide) -> i64
    ensures { (result ≡ lead w.a w.b) × (nat_abs result ≤ 1) }
{
    i64::from(0 < w.a || (w.a == 0 && 0 < w.b))
}

// Whether r is as good as r − w and as r + w, where w is not zero and has the norm n, and r·conj(w) has the trace t.
// The norm of r − w is that of r, less t, plus n, and the norm of r + w is that of r, plus t, plus n.
fn as_good(t: i64, n: i64, w: Wide) -> bool
    requires { nat_abs n ≤ 2 ^ 26 }
    ensures { result ≡ within t n (lead w.a w.b) }
{
    let p = lead(w);
    p - n <= t && t < n + p
}

// Whether r is as good as its six neighbours r − q·unit: x, y and x + y are the traces with q, qω and q(1 + ω).
fn unbeaten(r: Wide, q: Wide) -> bool
    requires { (nat_abs r.a ≤ 2 ^ 31) × (nat_abs r.b ≤ 2 ^ 31) × (nat_abs q.a ≤ 4095) × (nat_abs q.b ≤ 4095) × (value q.a q.b ≢ 𝟘) }
    ensures { result ≡ same (mod_q (value q.a q.b) (value r.a r.b)) (value r.a r.b) }
{
    let n = i64::from(norm(q.a as i16, q.b as i16));
    let e = q.a + q.a - q.b;
    let x = r.a * e + r.b * (q.b + q.b - q.a);
    let y = r.b * e - r.a * (q.a + q.b);
    let q_omega = Wide {
        a: -q.b,
        b: q.a - q.b,
    };
    let sum = Wide {
        a: q.a - q.b,
        b: q.a,
    };
    as_good(x, n, q) && as_good(y, n, q_omega) && as_good(x + y, n, sum)
}

// Whether (a, b) is its own remainder modulo q = (c, d), where 2 and 21 do not refuse q: none of its six neighbours (a, b) − q·unit is better. Needs no division.
pub fn is_remainder(a: i32, b: i32, c: i32, d: i32) -> bool
    ensures { result ≡ (not (beyond 4095 (value c d)) && (not (same (value c d) 𝟘) && same (mod_q (value c d) (value a b)) (value a b))) }
{
    let q = Wide {
        a: i64::from(c),
        b: i64::from(d),
    };
    let r = Wide {
        a: i64::from(a),
        b: i64::from(b),
    };
    !modulus_out_of_range(c, d) && !is_zero(q.a, q.b) && unbeaten(r, q)
}
