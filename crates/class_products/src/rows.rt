// The classes of an array, and the rows of the table laid along them: for each class but 0, its products with these classes, twice,
// so that each rotation of them is one run of bytes.
ghost use Rattle.std.specs.Prelude.{◌≡◌, ℕ, ◌+◌, ◌*◌, ◌<◌, ◌≤◌, length, get_or};
ghost use Rattle.polynomials.specs.Polynomials.{coefficient};
ghost use Rattle.classes.specs.Classes.{class_of, product};
ghost use Rattle.class_products.specs.Steps.{Classes, Laid, LaidTwice, Rows};

use classes::{class_of, products};

// The class of coefficient i.
fn class_at(x: &[i32], i: usize) -> u8
    requires { (i < 1024) × (2 * i + 1 < length x.now) }
    ensures { result ≡ class_of (coefficient x.now i) }
{
    let a = x[2 * i];
    let b = x[2 * i + 1];
    class_of(a, b)
}

// The classes of all coefficients.
pub(crate) fn classes_of(y: &[i32], classes: &mut [u8])
    requires { (length classes.old ≤ 1024) × (length y.now ≡ 2 * length classes.old) }
    ensures { (length classes.new ≡ length classes.old)
        × ((k : ℕ) → k < length classes.old → get_or classes.new k 0 ≡ class_of (coefficient y.now k)) }
{
    for (k, class) in classes.iter_mut().enumerate() {
        *class = class_at(y, k);
    }
}

// Class c times each class, from a place on.
fn lay_row(classes: &[u8], c: usize, start: usize, rows: &mut [u8])
    requires classes_bound { (length classes.now ≤ 1024) × (c < 4) × (start ≤ 4096) × (start + length classes.now ≤ length rows.old) }
    requires classes { Classes classes.now }
    ensures { Laid (length classes.now) (λ k. product c (get_or classes.now k 0)) start rows.old rows.new }
{
    let table = products();
    for (k, class) in classes.iter().enumerate() {
        let column = usize::from(*class);
        rows[start + k] = table[c][column];
    }
}

// The row of class c, twice.
fn lay_twice(classes: &[u8], c: usize, start: usize, rows: &mut [u8])
    requires classes_bound { (length classes.now ≤ 1024) × (c < 4) × (start ≤ 4096) × (start + 2 * length classes.now ≤ length rows.old) }
    requires classes { Classes classes.now }
    ensures { LaidTwice (length classes.now) (λ k. product c (get_or classes.now k 0)) start rows.old rows.new }
{
    lay_row(classes, c, start, rows);
    let end = start + classes.len();
    rows.copy_within(start..end, end);
}

// The rows of the classes 1, 2 and 3, one after another.
pub(crate) fn lay_rows(classes: &[u8], rows: &mut [u8])
    requires classes_bound { (length classes.now ≤ 1024) × (6 * length classes.now ≤ length rows.old) }
    requires classes { Classes classes.now }
    ensures { (length rows.new ≡ length rows.old) × Rows (length classes.now) (λ k. get_or classes.now k 0) rows.new }
{
    let n = classes.len();
    lay_twice(classes, 1, 0, rows);
    lay_twice(classes, 2, 2 * n, rows);
    lay_twice(classes, 3, 4 * n, rows);
}
