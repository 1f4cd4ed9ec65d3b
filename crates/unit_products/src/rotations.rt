// The product by rotations. The units are the powers ζ⁰ to ζ⁵ of ζ = 1 + ω: for each, from the fifth down, the sums are multiplied by ζ,
// and y is added to them, rotated by each place at which x is this unit.
ghost use Rattle.std.specs.Prelude.{◌≡◌, true, ◌+◌, ◌-◌, ◌*◌, ◌^◌, ◌%◌, ◌<◌, ◌≤◌, pos, nat_abs, length, get_or, set};
ghost use Rattle.eisenstein.specs.Values.{value, ◌*ω◌};
ghost use Rattle.polynomials.specs.Polynomials.{coefficient, array, sum, convolution, zeros_and_units};
ghost use Rattle.arrays.specs.Arrays.{AllWithin, Zeros};
ghost use Rattle.unit_operands.specs.Operands.{Operands};
ghost use Rattle.unit_products.specs.Rotations.{ζ, PartsBelow, run, runs, six_at, SixFit, Filled, Added, Summed, Rotated, Summands, PlacesBelow};

use crate::places::places_of;
use eisenstein::Pair;

// The sum of six numbers of `twice`, each k places after a start, formed in 16 bits.
fn sum_of_six(twice: &[i16], starts: &[usize; 6], k: usize) -> i16
    requires six_fit { SixFit starts.now (k + 1) twice.now × (length twice.now ≤ 4096) }
    requires all_within { AllWithin 5461 twice.now }
    ensures { (result ≡ six_at twice.now starts.now k) × (nat_abs result ≤ 32766) }
{
    twice[starts[0] + k]
        + twice[starts[1] + k]
        + twice[starts[2] + k]
        + twice[starts[3] + k]
        + twice[starts[4] + k]
        + twice[starts[5] + k]
}

// The sums of six runs of `twice`, each from so many places after a start on, to a block of numbers. With numbers of 16 bits alone, eight are added at once.
fn sum_runs(block: &mut [i16], twice: &[i16], starts: &[usize; 6], from: usize)
    requires six_fit { SixFit starts.now (from + length block.old) twice.now × (length twice.now ≤ 4096) }
    requires all_within { AllWithin 5461 twice.now }
    ensures { Filled (λ k. six_at twice.now starts.now (from + k)) block.old block.new }
{
    for (k, sum) in block.iter_mut().enumerate() {
        *sum = sum_of_six(twice, starts, from + k);
    }
}

// Adds one run of numbers. It goes by an index, here and wherever sums are written: of what a loop writes through `zip` or `chunks_mut` a proof knows nothing.
fn add_run(sums: &mut [i32], numbers: &[i16])
    requires { (length sums.old ≤ length numbers.now) × AllWithin (2 ^ 30) sums.old × AllWithin 32766 numbers.now }
    ensures { Added (λ k. get_or numbers.now k (pos 0)) sums.old sums.new }
{
    for (k, sum) in sums.iter_mut().enumerate() {
        *sum += i32::from(numbers[k]);
    }
}

// Adds six runs of `twice`, each from so many places after a start on, to sums that are no more than a block has room for.
fn add_part(sums: &mut [i32], twice: &[i16], block: &mut [i16], starts: &[usize; 6], from: usize)
    requires six_fit { SixFit starts.now (from + length sums.old) twice.now × (length sums.old ≤ length block.old) × (length twice.now ≤ 4096) }
    requires all_within { AllWithin (2 ^ 30) sums.old × AllWithin 5461 twice.now }
    ensures { (length block.new ≡ length block.old) × Added (λ k. six_at twice.now starts.now (from + k)) sums.old sums.new }
{
    let block = &mut block[..sums.len()];
    sum_runs(block, twice, starts, from);
    add_run(sums, block);
}

// Adds six runs to all sums, a part after another.
fn add_six(sums: &mut [i32], twice: &[i16], block: &mut [i16], starts: &[usize; 6])
    requires six_fit { SixFit starts.now (length sums.old) twice.now × (length block.old ≡ 256) × (length twice.now ≤ 4096) }
    requires all_within { AllWithin (2 ^ 30) sums.old × AllWithin 5461 twice.now }
    ensures { (length block.new ≡ length block.old) × Added (six_at twice.now starts.now) sums.old sums.new }
{
    for from in (0..sums.len()).step_by(256) {
        let end = (from + 256).min(sums.len());
        add_part(&mut sums[from..end], twice, block, starts, from);
    }
}

// Where the rotation by a place begins.
fn start(n: usize, place: u16) -> usize
    requires { (n ≤ 1024) × (place < n) }
    ensures { result ≡ 2 * (n - place) }
{
    2 * (n - usize::from(place))
}

// Adds the rotations by places that are a multiple of six, six at a time.
fn add_sixes(sums: &mut [i32], twice: &[i16], block: &mut [i16], n: usize, places: &[u16])
    requires { Summands n (2 ^ 29) sums.old twice.now × PlacesBelow n places.now × (length places.now % 6 ≡ 0) × (length block.old ≡ 256) }
    ensures { (length block.new ≡ length block.old)
        × Rotated n twice.now (λ m. get_or places.now m 0) (length places.now) sums.old sums.new }
{
    for m in (0..places.len()).step_by(6) {
        let starts = [
            start(n, places[m]),
            start(n, places[m + 1]),
            start(n, places[m + 2]),
            start(n, places[m + 3]),
            start(n, places[m + 4]),
            start(n, places[m + 5]),
        ];
        add_six(sums, twice, block, &starts);
    }
}

// Adds the rotations by places, one after another.
fn add_rest(sums: &mut [i32], twice: &[i16], n: usize, places: &[u16])
    requires { Summands n (2 ^ 29 + 2 ^ 23) sums.old twice.now × PlacesBelow n places.now }
    ensures { Rotated n twice.now (λ m. get_or places.now m 0) (length places.now) sums.old sums.new }
{
    for place in places {
        add_run(sums, &twice[start(n, *place)..]);
    }
}

// Adds the rotations by the places at which x is u.
fn add_unit(
    x: &[i32],
    n: usize,
    u: Pair,
    twice: &[i16],
    places: &mut [u16],
    block: &mut [i16],
    sums: &mut [i32],
)
    requires { (length x.now ≡ 2 * n) × Summands n (2 ^ 29) sums.old twice.now × (n ≤ length places.old) × (length block.old ≡ 256) }
    ensures { (length places.new ≡ length places.old) × (length block.new ≡ length block.old)
        × Summed n (runs n twice.now (value u.a u.b) (coefficient x.now)) (2 ^ 23) sums.old sums.new }
{
    let count = places_of(x, n, u, places);
    let sixes = count - count % 6;
    add_sixes(sums, twice, block, n, &places[..sixes]);
    add_rest(sums, twice, n, &places[sixes..count]);
}

// Multiplies coefficient i by ζ.
fn turn_at(x: &mut [i32], i: usize)
    requires { (i < 1024) × (2 * i + 1 < length x.old) × PartsBelow (2 ^ 29) (coefficient x.old i) }
    ensures { x.new ≡ set (set x.old (2 * i) (ζ *ω coefficient x.old i).a) (2 * i + 1) (ζ *ω coefficient x.old i).b }
{
    let a = x[2 * i];
    let b = x[2 * i + 1];
    x[2 * i] = a - b;
    x[2 * i + 1] = a;
}

// Multiplies each coefficient by ζ.
fn turn(x: &mut [i32], n: usize)
    requires n_bound { (n ≤ 1024) × (length x.old ≡ 2 * n) }
    requires all_within { AllWithin (2 ^ 29) x.old }
    ensures { x.new ≡ array n (λ i. ζ *ω coefficient x.old i) }
{
    for i in 0..n {
        turn_at(x, i);
    }
}

// Adds what every unit brings, to sums that are zero.
fn add_units(
    x: &[i32],
    n: usize,
    twice: &[i16],
    places: &mut [u16],
    block: &mut [i16],
    sums: &mut [i32],
)
    requires x_len { (length x.now ≡ 2 * n) × (zeros_and_units n (coefficient x.now) ≡ true) × (n ≤ length places.old) × (length block.old ≡ 256) }
    requires zeros { Zeros sums.old × Summands n 0 sums.old twice.now }
    ensures { sums.new ≡ array n (λ i. sum n (λ j. coefficient x.now j *ω run n twice.now j i)) }
{
    for k in (0..6).rev() {
        turn(sums, n);
        add_unit(x, n, eisenstein::unit(k), twice, places, block, sums);
    }
}

// x × y, to out, with room for y twice, for the places and for a block of sums. The rooms are lent one by one, since some steps only read what others write.
fn multiply_with(
    x: &[i32],
    y: &[i32],
    n: usize,
    twice: &mut [i16],
    places: &mut [u16],
    block: &mut [i16],
    out: &mut [i32],
)
    requires { Operands n x.now y.now out.old × (length twice.old ≡ 2 * (2 * n)) × (n ≤ length places.old) × (length block.old ≡ 256) }
    ensures { out.new ≡ array n (convolution n (coefficient x.now) (coefficient y.now)) }
{
    unit_operands::lay_out_twice(y, twice);
    arrays::clear(out);
    add_units(x, n, twice, places, block, out);
}

// The same, with room for at most PLACES coefficients of x, for TWICE numbers, and for the sums of six runs.
fn convolve_in<const TWICE: usize, const PLACES: usize>(
    x: &[i32],
    y: &[i32],
    n: usize,
    out: &mut [i32],
)
    requires { Operands n x.now y.now out.old × (4 * n ≤ TWICE) × (TWICE ≤ 4096) × (n ≤ PLACES) × (PLACES ≤ 1024) }
    ensures { out.new ≡ array n (convolution n (coefficient x.now) (coefficient y.now)) }
{
    let mut twice = [0; TWICE];
    let mut places = [0; PLACES];
    let mut block = [0; 256];
    multiply_with(x, y, n, &mut twice[..4 * n], &mut places, &mut block, out);
}

// x × y, to out. At the largest N there are 10 KiB of room. For N up to 128 there is a room of 1.25 KiB, so that a small product
// does not spend its time clearing room for a large one.
pub(crate) fn convolve_units(x: &[i32], y: &[i32], n: usize, out: &mut [i32])
    requires { Operands n x.now y.now out.old }
    ensures { out.new ≡ array n (convolution n (coefficient x.now) (coefficient y.now)) }
{
    if n <= 128 {
        convolve_in::<512, 128>(x, y, n, out);
    } else {
        convolve_in::<4096, 1024>(x, y, n, out);
    }
}
