// Laying an array out twice.
ghost use Rattle.std.specs.Prelude.{◌≡◌, ◌*◌, ◌≤◌, length};
ghost use Rattle.arrays.specs.Arrays.{Small};
ghost use Rattle.unit_operands.specs.Operands.{repeatable};
ghost use Rattle.unit_operands.specs.Repeated.{Twice};

#[tactic(auto, using(std::proofs::lemmas::Bool::Decides::nat_tests), unfolding(crate::specs::Operands::repeatable))]
pub(crate) fn repeatable(y: &[i32], room: usize) -> bool
    ensures { result ≡ repeatable y.now room }
{
    y.len() <= 2048 && room == 2 * y.len() && array_limits::all_small(y)
}

// Lays y out twice, once after the other.
pub(crate) fn lay_out(y: &[i32], twice: &mut [i16])
    requires y_len_bound { (length y.now ≤ 2048) × (length twice.old ≡ 2 * length y.now) }
    requires small { Small y.now }
    ensures { Twice y.now twice.new }
{
    for (k, v) in y.iter().enumerate() {
        twice[k] = *v as i16;
        twice[y.len() + k] = *v as i16;
    }
}
