// The product of two arrays modulo 2: each coefficient is reduced to its class first, and only classes are multiplied and added.
// What an array stands for in the scheme is not this crate's business.
// Its one call relies on no caller: it asks N and the lengths, and nothing of the numbers. It takes less than 12 KiB of stack at every N.

#![tactic(auto)]

ghost use Rattle.std.specs.Prelude.{◌≡◌, ◌+◌, ◌*◌, ◌%◌, ◌≤◌, length};
ghost use Rattle.eisenstein.specs.Reduction.{mod2};
ghost use Rattle.polynomials.specs.Polynomials.{coefficient, array, convolution};
ghost use Rattle.unit_operands.specs.Operands.{Forms};
ghost use Rattle.class_products.specs.Lengths.{fit};
ghost use Rattle.class_products.specs.Steps.{Empty};

mod rows;
mod starts;
mod sums;

// x × y modulo 2, to out, with room for the classes of y and then of x, for the rows along y, for where runs of them begin, and for the sums, which are zero.
// The rooms are lent one by one, since some steps only read what others write.
fn multiply_with(
    x: &[i32],
    y: &[i32],
    classes: &mut [u8],
    rows: &mut [u8],
    starts: &mut [u16],
    sums: &mut [u8],
    out: &mut [i32],
)
    requires arrays { (length classes.old ≤ 1024) × (length x.now ≡ 2 * length classes.old) × (length y.now ≡ 2 * length classes.old) × (length out.old ≡ 2 * length classes.old) }
    requires room { (6 * length classes.old + 32 ≤ length rows.old) × (length rows.old ≤ 8192) × (length classes.old ≤ length starts.old) }
    requires sums { (length classes.old ≤ length sums.old) × (length sums.old ≤ length classes.old + 31) × Empty sums.old }
    ensures { out.new ≡ array (length classes.old) (λ i. mod2 (convolution (length classes.old) (coefficient x.now) (coefficient y.now) i)) }
{
    let n = classes.len();
    rows::classes_of(y, classes);
    rows::lay_rows(classes, rows);
    rows::classes_of(x, classes);
    let count = starts::starts_of(classes, starts);
    sums::add_runs(sums, rows, &starts[..count]);
    sums::write_remainders(sums, n, out);
}

// How many sums are formed: N rounded up to a multiple of 32, so that the compiled loop, which takes 32 bytes at once, has no rest. Those past N are not looked at.
fn sum_count(n: usize) -> usize
    requires { n ≤ 1024 }
    ensures { (n ≤ result) × (result ≤ n + 31) × (result % 32 ≡ 0) }
{
    n.next_multiple_of(32)
}

// The same, with room for the classes of ROOM coefficients, for their sums and for where as many runs begin, and for three rows of ROWS bytes,
// with 32 bytes behind them, which the sums past N take in.
fn multiply_in<const ROOM: usize, const ROWS: usize>(
    x: &[i32],
    y: &[i32],
    n: usize,
    out: &mut [i32],
)
    requires arrays { (n ≤ ROOM) × (length x.now ≡ 2 * n) × (length y.now ≡ 2 * n) × (length out.old ≡ 2 * n) }
    requires room { (ROOM ≤ 1024) × (ROOM % 32 ≡ 0) × (6 * ROOM + 32 ≤ ROWS) × (ROWS ≤ 8192) }
    ensures { out.new ≡ array n (λ i. mod2 (convolution n (coefficient x.now) (coefficient y.now) i)) }
{
    let mut classes = [0; ROOM];
    let mut rows = [0; ROWS];
    let mut starts = [0; ROOM];
    let mut sums = [0; ROOM];
    let count = sum_count(n);
    multiply_with(
        x,
        y,
        &mut classes[..n],
        &mut rows,
        &mut starts,
        &mut sums[..count],
        out,
    );
}

// At the largest N there are 10 KiB of room in all. For N up to 256 there is a room of 2.5 KiB, so that a small product does not
// spend its time clearing room for a large one.
fn multiply(x: &[i32], y: &[i32], n: usize, out: &mut [i32])
    requires { (n ≤ 1024) × (length x.now ≡ 2 * n) × (length y.now ≡ 2 * n) × (length out.old ≡ 2 * n) }
    ensures { out.new ≡ array n (λ i. mod2 (convolution n (coefficient x.now) (coefficient y.now) i)) }
{
    if n <= 256 {
        multiply_in::<256, 1568>(x, y, n, out);
    } else {
        multiply_in::<1024, 6176>(x, y, n, out);
    }
}

// x × y modulo 2, to out. Answers whether it was formed; nothing is written otherwise.
// The answer is a bool and no Option, since the value goes to a lent output.
pub fn multiply_modulo_2(n: u32, x: &[i32], y: &[i32], out: &mut [i32]) -> bool
    ensures { Forms (fit n (length x.now) (length y.now) (length out.old))
        (array n (λ i. mod2 (convolution n (coefficient x.now) (coefficient y.now) i))) result out.old out.new }
{
    if n > 1024 || !arrays::three_full(n, x.len(), y.len(), out.len()) {
        return false;
    }
    multiply(x, y, n as usize, out);
    true
}
