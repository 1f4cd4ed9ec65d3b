// The operands of the product with an array of zeros and units: what is asked of them, and the second of them laid out twice.
// It forms no product.

#![tactic(auto)]

ghost use Rattle.std.specs.Prelude.{◌≡◌, ◌++◌, length};
ghost use Rattle.unit_operands.specs.Operands.{Forms, multipliable, repeatable};

mod twice;

// Whether x is of zeros and units, y as long with small numbers, and an output of so many numbers has room for the product.
#[tactic(auto, using(std::proofs::lemmas::Bool::Decides::nat_tests), unfolding(crate::specs::Operands::multipliable))]
pub fn multipliable(n: u32, x: &[i32], y: &[i32], room: usize) -> bool
    ensures { result ≡ multipliable n x.now y.now room }
{
    let long = 2 * (n as usize);
    array_limits::zeros_and_units(x, n)
        && y.len() == long
        && room == long
        && array_limits::all_small(y)
}

// y, and y again after it, to `twice`, so that each rotation of y is one run of numbers. Answers whether it was laid out; nothing is written otherwise.
// The answer is a bool and no Option, since the value goes to a lent output.
pub fn lay_out_twice(y: &[i32], twice: &mut [i16]) -> bool
    ensures { Forms (repeatable y.now (length twice.old)) (y.now ++ y.now) result twice.old twice.new }
{
    if !twice::repeatable(y, twice.len()) {
        return false;
    }
    twice::lay_out(y, twice);
    true
}
