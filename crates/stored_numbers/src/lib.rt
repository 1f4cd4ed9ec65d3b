// Numbers as they are stored, two bytes each: read from bytes, and written to them.
// It knows no file and no parameter set. A call answers whether it could, and writes nothing otherwise.
// The answer is a bool and no Option, since the value goes to a lent output.

#![tactic(auto)]

ghost use Rattle.std.specs.Prelude.{◌≡◌, ◌&&◌, ◌*◌, eqb, length};
ghost use Rattle.arrays.specs.Arrays.{all_small};
ghost use Rattle.unit_operands.specs.Operands.{Forms};
ghost use Rattle.files.specs.Files.{numbers_from, bytes_of};

mod reading;
mod writing;

// Whether so many bytes store so many numbers.
fn two_each(bytes: usize, numbers: usize) -> bool
    ensures { result ≡ eqb bytes (2 * numbers) }
{
    bytes % 2 == 0 && bytes / 2 == numbers
}

// The numbers that bytes store, to numbers, where there is room for just these.
pub fn read_numbers(bytes: &[u8], numbers: &mut [i32]) -> bool
    ensures { Forms (eqb (length bytes.now) (2 * length numbers.old)) (numbers_from bytes.now) result numbers.old numbers.new }
{
    if !two_each(bytes.len(), numbers.len()) {
        return false;
    }
    reading::read_into(bytes, numbers);
    true
}

// The bytes that store numbers, to bytes, where there is room for just these and each number is at most 5,461 in size, as every array's are.
pub fn write_numbers(numbers: &[i32], bytes: &mut [u8]) -> bool
    ensures { Forms (eqb (length bytes.old) (2 * length numbers.now) && all_small numbers.now)
        (bytes_of numbers.now) result bytes.old bytes.new }
{
    if !two_each(bytes.len(), numbers.len()) {
        return false;
    }
    if !array_limits::all_small(numbers) {
        return false;
    }
    writing::write_into(numbers, bytes);
    true
}
