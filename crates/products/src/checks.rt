// Whether a modulus can be reduced by.
ghost use Rattle.std.specs.Prelude.{◌≡◌};
ghost use Rattle.eisenstein.specs.Values.{value};
ghost use Rattle.products.specs.Products.{usable};

use eisenstein::{is_zero, modulus_out_of_range};

pub(crate) fn usable(c: i32, d: i32) -> bool
    ensures { result ≡ usable (value c d) }
{
    !modulus_out_of_range(c, d) && !is_zero(c as i64, d as i64)
}
