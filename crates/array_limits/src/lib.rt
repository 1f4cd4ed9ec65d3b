// Tests of an array's numbers by their size: whether all are small, and whether its coefficients are zeros and units alone.
// It knows no parameter set, and refuses nothing.
// No function relies on a length or on N.

#![tactic(auto)]

ghost use Rattle.std.specs.Prelude.{◌≡◌, ◌*◌, ◌≤◌, length};
ghost use Rattle.polynomials.specs.Polynomials.{coefficient, zeros_and_units};
ghost use Rattle.arrays.specs.Arrays.{all_small, units_array};

mod limits;

use parameters::Parameters;

// The parts of 0 and of a unit are at most 1 in size and differ by at most 1, and those of no other value.
fn all_zero_or_unit(x: &[i32], n: usize) -> bool
    requires { (n ≤ 1024) × (length x.now ≡ 2 * n) }
    ensures { result ≡ zeros_and_units n (coefficient x.now) }
{
    limits::numbers_within(x, 1) && limits::parts_together(x, n)
}

// Whether x is an array of N coefficients, N at most 1,024, that are zeros and units alone.
#[tactic(auto, unfolding(arrays::specs::Arrays::units_array))]
pub fn zeros_and_units(x: &[i32], n: u32) -> bool
    ensures { result ≡ units_array n x.now }
{
    n <= Parameters::MAX_N && x.len() == 2 * (n as usize) && all_zero_or_unit(x, n as usize)
}

// Whether each number is at most 5,461 in size.
pub fn all_small(x: &[i32]) -> bool
    ensures { result ≡ all_small x.now }
{
    limits::numbers_within(x, 5461)
}
