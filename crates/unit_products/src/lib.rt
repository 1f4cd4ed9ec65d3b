// The product of an array of zeros and units with another array, by additions alone.
// It reduces nothing, and what an array stands for in the scheme is not this crate's business.
// Its one call relies on no caller: what its arithmetic needs of its arrays is asked first, by `unit_operands`. It takes less than 12 KiB of stack at every N.

#![tactic(auto)]

ghost use Rattle.std.specs.Prelude.{length};
ghost use Rattle.polynomials.specs.Polynomials.{coefficient, array, convolution};
ghost use Rattle.unit_operands.specs.Operands.{Forms, multipliable};

mod places;
mod rotations;

// x × y, to out, where x is of zeros and units. Answers whether it was formed; nothing is written otherwise.
// The answer is a bool and no Option, since the value goes to a lent output.
pub fn multiply_units(n: u32, x: &[i32], y: &[i32], out: &mut [i32]) -> bool
    ensures { Forms (multipliable n x.now y.now (length out.old))
        (array n (convolution n (coefficient x.now) (coefficient y.now))) result out.old out.new }
{
    if !unit_operands::multipliable(n, x, y, out.len()) {
        return false;
    }
    rotations::convolve_units(x, y, n as usize, out);
    true
}
