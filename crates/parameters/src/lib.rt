// The parameter set of the scheme, with its limits and a maker that refuses.
// It chooses no set, and knows no array.
// Every operation on a parameter set begins with `check`, so none relies on how its set was made.

#![tactic(auto)]

ghost use Rattle.std.specs.Prelude.{◌≡◌, false, not, ◌&&◌, ◌||◌, ◌+◌, ◌*◌, ◌%◌, ◌≤◌, ltb, eqb};
ghost use Rattle.refusals.specs.Outcomes.{outcome};
ghost use Rattle.refusals.specs.Numbers.{answered};
ghost use Rattle.eisenstein.specs.Values.{value, norm};
ghost use Rattle.eisenstein.specs.Calls.{beyond};
ghost use Rattle.parameters.specs.Checked.{checked};
ghost use Rattle.parameters.specs.Sets.{set, set_of, outside, even, parameter_checks, parameters, made};

mod checked_parameters;

pub use checked_parameters::CheckedParameters;
use refusals::Refusal;

// N coefficients, the modulus q = (c, d), s nonzero coefficients of g and of the ephemeral φ, t of f.
#[derive(Clone, Copy, Debug, PartialEq, Eq)]
pub struct Parameters {
    pub n: u32,
    pub c: i32,
    pub d: i32,
    pub s: u32,
    pub t: u32,
}

// Whether x is not from low to high.
pub fn out_of_range(x: u32, low: u32, high: u32) -> bool
    ensures { result ≡ outside low high x }
{
    x < low || high < x
}

// Whether both parts of the modulus are even.
fn both_even(c: i32, d: i32) -> bool
    ensures { result ≡ (even c && even d) }
{
    !eisenstein::odd(c as i64) && !eisenstein::odd(d as i64)
}

// Whether s is out of range or not a multiple of 3.
fn bad_s(n: u32, s: u32) -> bool
    ensures { result ≡ (outside 3 n s || not (eqb (s % 3) 0)) }
{
    out_of_range(s, Parameters::MIN_S, n) || s % 3 != 0
}

// Whether 4·(2s + t)² is not below the norm of (c, d), where s, t, c and d are in range.
fn not_below_norm(c: i32, d: i32, s: u32, t: u32) -> bool
    requires { (s ≤ 1024) × (t ≤ 1024) × (beyond 4095 (value c d) ≡ false) }
    ensures { result ≡ not (ltb (4 * ((2 * s + t) * (2 * s + t))) (norm (value c d))) }
{
    let w = 2 * s + t;
    let norm = eisenstein::norm(c as i16, d as i16);
    norm <= 4 * (w * w)
}

fn check_numbers(n: u32, c: i32, d: i32, s: u32, t: u32) -> Result<(), Refusal>
    ensures { answered result ≡ outcome (parameter_checks (set n c d s t)) tt }
{
    if out_of_range(n, Parameters::MIN_N, Parameters::MAX_N) {
        return Err(Refusal::CoefficientCountOutOfRange);
    }
    if eisenstein::modulus_out_of_range(c, d) {
        return Err(Refusal::ModulusPartOutOfRange);
    }
    if both_even(c, d) {
        return Err(Refusal::ModulusPartsBothEven);
    }
    if bad_s(n, s) {
        return Err(Refusal::SOutOfRange);
    }
    if out_of_range(t, Parameters::MIN_T, n) {
        return Err(Refusal::TOutOfRange);
    }
    if not_below_norm(c, d, s, t) {
        return Err(Refusal::BoundNotBelowNorm);
    }
    Ok(())
}

impl Parameters {
    // The limits of N, and the least s and t. Neither s nor t is above N.
    pub const MIN_N: u32 = 3;

    pub const MAX_N: u32 = 1024;

    pub const MIN_S: u32 = 3;

    pub const MIN_T: u32 = 1;

    // The first of refusals 1 to 6 that applies.
    pub fn check(self) -> Result<(), Refusal>
        ensures { answered result ≡ outcome (parameter_checks (set_of self)) tt }
    {
        check_numbers(self.n, self.c, self.d, self.s, self.t)
    }

    // The same set as one that is accepted, or the first refusal.
    pub fn checked(self) -> Result<CheckedParameters, Refusal>
        ensures { checked result ≡ outcome (parameter_checks (set_of self)) self }
    {
        self.check()?;
        Ok(CheckedParameters { parameters: self })
    }

    // A parameter set that is accepted, or the first refusal.
    pub fn new(n: u32, c: i32, d: i32, s: u32, t: u32) -> Result<Parameters, Refusal>
        ensures { made result ≡ parameters (set n c d s t) }
    {
        check_numbers(n, c, d, s, t)?;
        Ok(Parameters { n, c, d, s, t })
    }
}
