// The two passes over a list's records: whether one is out of range, and laying each unit at its place.
ghost use Rattle.std.specs.Prelude.{◌≡◌, true, false, not, cond, ℕ, ◌+◌, ◌*◌, ◌<◌, ◌≤◌, eqb, length};
ghost use Rattle.eisenstein.specs.Values.{unit};
ghost use Rattle.polynomials.specs.Polynomials.{coefficient, array, nonzero};
ghost use Rattle.arrays.specs.Arrays.{Zeros};
ghost use Rattle.placed_units.specs.PlacedUnits.{any_out_of_range, any_place_twice, spread};

use placed_units::PlacedUnit;

// Whether a place is N or more, or a unit number above 5, in the whole list.
pub(crate) fn any_out_of_range(n: u32, places: &[PlacedUnit]) -> bool
    ensures { result ≡ any_out_of_range n places.now }
{
    places.iter().any(|r| r.place >= n || r.unit > 5)
}

// Puts a record's unit at its place if that is free, and answers whether it was.
fn put(x: &mut [i32], r: PlacedUnit) -> bool
    requires { (2 * r.place + 1 < length x.old) × (r.unit ≤ 5) }
    ensures value { result ≡ not (nonzero (coefficient x.old r.place)) }
    ensures x_len_unchanged { length x.new ≡ length x.old }
    ensures i_after { result ≡ true → (i : ℕ) → coefficient x.new i ≡ cond (eqb r.place i) (unit r.unit) (coefficient x.old i) }
{
    let free = arrays::coefficient_is(x, r.place, 0, 0);
    if free {
        let u = eisenstein::unit(r.unit as usize);
        let k = 2 * (r.place as usize);
        x[k] = u.a;
        x[k + 1] = u.b;
    }
    free
}

// Lays the list into an array of zeros, from the last record to the first, and answers whether each place was free.
pub(crate) fn lay(n: u32, places: &[PlacedUnit], x: &mut [i32]) -> bool
    requires in_range { any_out_of_range n places.now ≡ false }
    requires zeros { (length x.old ≡ 2 * n) × Zeros x.old }
    ensures value { result ≡ not (any_place_twice places.now) }
    ensures x_after { result ≡ true → x.new ≡ array n (spread places.now) }
{
    for r in places.iter().rev() {
        if !put(x, *r) {
            return false;
        }
    }
    true
}
