// Products by halving (document 02, wish 5): what they are, that they are the direct ones, and what is asked of their operands.
// It forms no product; `halved_products` does.

#![tactic(auto)]

ghost use Rattle.std.specs.Prelude.{◌≡◌};
ghost use Rattle.halving.specs.Operands.{lengths_fit, fit_for_halving};

use parameters::Parameters;

// Whether two arrays of so many numbers have N coefficients, N from 2 to 1,024, and the room is enough. With at most 65,536 numbers each place in it is a small number.
#[tactic(auto, unfolding(crate::specs::Operands::lengths_fit))]
fn lengths_fit(n: usize, x: usize, y: usize, room: usize) -> bool
    ensures { result ≡ lengths_fit n x y room }
{
    2 <= n
        && n <= Parameters::MAX_N as usize
        && x == 2 * n
        && y == 2 * n
        && room <= 65536
        && 17 * n <= 2 * room
}

// The same, and whether their numbers are small.
#[tactic(auto, unfolding(crate::specs::Operands::fit_for_halving))]
pub fn fit_for_halving(x: &[i32], y: &[i32], n: usize, room: usize) -> bool
    ensures { result ≡ fit_for_halving n x.now y.now room }
{
    lengths_fit(n, x.len(), y.len(), room)
        && array_limits::all_small(x)
        && array_limits::all_small(y)
}
