// The places at which an array has a unit.
ghost use Rattle.std.specs.Prelude.{◌≡◌, ◌+◌, ◌*◌, ◌<◌, ◌≤◌, length};
ghost use Rattle.eisenstein.specs.Values.{value, same};
ghost use Rattle.polynomials.specs.Polynomials.{coefficient};
ghost use Rattle.unit_products.specs.Rotations.{Places};

use eisenstein::Pair;

// Whether coefficient i is u. Both parts are asked in any case: a jump by the first would be guessed by the processor, and often wrongly.
fn coefficient_is(x: &[i32], i: usize, u: Pair) -> bool
    requires { (i < 1024) × (2 * i + 1 < length x.now) }
    ensures { result ≡ same (coefficient x.now i) (value u.a u.b) }
{
    let a = x[2 * i];
    let b = x[2 * i + 1];
    (a == u.a) & (b == u.b)
}

// Lists the places at which x is u, and gives their count. Each place is written, and stays if it counts.
pub(crate) fn places_of(x: &[i32], n: usize, u: Pair, places: &mut [u16]) -> usize
    requires { (n ≤ 1024) × (length x.now ≡ 2 * n) × (n ≤ length places.old) }
    ensures { (length places.new ≡ length places.old) × Places n (value u.a u.b) (coefficient x.now) places.new result }
{
    let mut count = 0;
    for j in 0..n {
        places[count] = j as u16;
        if coefficient_is(x, j, u) {
            count += 1;
        }
    }
    count
}
