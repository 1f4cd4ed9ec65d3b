// The sums of runs of classes, and the values of the classes that they are.
// A sum of classes is the exclusive or of their numbers.
ghost use Rattle.std.specs.Prelude.{◌≡◌, ℕ, ◌+◌, ◌*◌, ◌%◌, ◌<◌, ◌≤◌, length, get_or};
ghost use Rattle.polynomials.specs.Polynomials.{array};
ghost use Rattle.classes.specs.Classes.{remainder_of, plus};
ghost use Rattle.class_products.specs.Steps.{Empty, Fits, Runs, Filled, four, Sums};

use classes::remainders;

// Adds one run of classes to all sums. It goes by an index, as all that write do here: of what a loop writes through `zip` or `chunks_mut` a proof knows nothing.
fn add_run(sums: &mut [u8], run: &[u8])
    requires { length sums.old ≤ length run.now }
    ensures { Filled (λ k. plus (get_or sums.old k 0) (get_or run.now k 0)) sums.old sums.new }
{
    for (k, sum) in sums.iter_mut().enumerate() {
        *sum ^= run[k];
    }
}

// Adds four runs, each from a start on, so that each sum is read and written once for all four.
fn add_four(sums: &mut [u8], rows: &[u8], starts: &[usize; 4])
    requires fits { (i : ℕ) → i < 4 → Fits (get_or starts.now i 0) sums.old rows.now }
    requires rows_len_bound { length rows.now ≤ 8192 }
    ensures { Filled (four rows.now starts.now sums.old) sums.old sums.new }
{
    for (k, sum) in sums.iter_mut().enumerate() {
        *sum = *sum
            ^ rows[starts[0] + k]
            ^ rows[starts[1] + k]
            ^ rows[starts[2] + k]
            ^ rows[starts[3] + k];
    }
}

// Adds the first runs of the list to sums that are zero, four at a time, and gives how many.
fn add_fours(sums: &mut [u8], rows: &[u8], starts: &[u16]) -> usize
    requires { Runs sums.old rows.now starts.now × Empty sums.old }
    ensures { (result ≤ length starts.now) × (length sums.new ≡ length sums.old) × Sums rows.now starts.now result sums.new }
{
    let fours = starts.len() - starts.len() % 4;
    for m in (0..fours).step_by(4) {
        let starts = [
            usize::from(starts[m]),
            usize::from(starts[m + 1]),
            usize::from(starts[m + 2]),
            usize::from(starts[m + 3]),
        ];
        add_four(sums, rows, &starts);
    }
    fours
}

// Adds the runs after them.
fn add_rest(sums: &mut [u8], rows: &[u8], starts: &[u16], done: usize)
    requires { (done ≤ length starts.now) × Runs sums.old rows.now starts.now × Sums rows.now starts.now done sums.old }
    ensures { (length sums.new ≡ length sums.old) × Sums rows.now starts.now (length starts.now) sums.new }
{
    for start in &starts[done..] {
        add_run(sums, &rows[usize::from(*start)..]);
    }
}

// Adds all runs of the list to sums that are zero.
pub(crate) fn add_runs(sums: &mut [u8], rows: &[u8], starts: &[u16])
    requires { Runs sums.old rows.now starts.now × Empty sums.old }
    ensures { (length sums.new ≡ length sums.old) × Sums rows.now starts.now (length starts.now) sums.new }
{
    let done = add_fours(sums, rows, starts);
    add_rest(sums, rows, starts, done);
}

// Writes the value of each class.
pub(crate) fn write_remainders(sums: &[u8], n: usize, out: &mut [i32])
    requires { (n ≤ 1024) × (n ≤ length sums.now) × (length out.old ≡ 2 * n) }
    ensures { out.new ≡ array n (λ i. remainder_of (get_or sums.now i 0 % 4)) }
{
    let values = remainders();
    for i in 0..n {
        let value = values[usize::from(sums[i] % 4)];
        out[2 * i] = value.a;
        out[2 * i + 1] = value.b;
    }
}
