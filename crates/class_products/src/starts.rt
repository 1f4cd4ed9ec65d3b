// Where the runs begin that the coefficients of the other operand bring.
ghost use Rattle.std.specs.Prelude.{◌≡◌, ◌*◌, ◌≤◌, length, get_or};
ghost use Rattle.class_products.specs.Steps.{Classes, row_starts, Starts};

// Where the row of each class begins.
fn row_starts(n: usize) -> [usize; 4]
    requires { n ≤ 1024 }
    ensures { result ≡ row_starts n }
{
    [0, 0, 2 * n, 4 * n]
}

// Lists, for each class that is not 0, where its row begins, rotated by its place, and gives their count.
// Each start is written, and stays if it counts: a jump by the class would be guessed by the processor, and often wrongly.
pub(crate) fn starts_of(classes: &[u8], starts: &mut [u16]) -> usize
    requires { (length classes.now ≤ 1024) × (length classes.now ≤ length starts.old) × Classes classes.now }
    ensures { (length starts.new ≡ length starts.old)
        × Starts (length classes.now) (length classes.now) (λ j. get_or classes.now j 0) starts.new result }
{
    let n = classes.len();
    let rows = row_starts(n);
    let mut count = 0;
    for (j, class) in classes.iter().enumerate() {
        let c = usize::from(*class);
        starts[count] = (rows[c] + (n - j)) as u16;
        if c != 0 {
            count += 1;
        }
    }
    count
}
