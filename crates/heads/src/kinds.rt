// The kinds of file, and what each holds: a new kind is added here, and to `arrays_of` of the definitions.
ghost use Rattle.std.specs.Prelude.{◌≡◌};
ghost use Rattle.heads.specs.Kinds.{arrays_of, number_of_kind, KindOf};

use array_sets::ArraySet;
use refusals::Refusal;

// The kinds of file, by the number that a head has.
// "Kind 1, public: h. Kind 2, private: f, F2, Fq, g. Kind 3, sealed: e."
// Document 02, wish 2: a bundle, which is not made of arrays alone; wish 4: a sealed short message, "laid out like kind 3".
#[derive(Clone, Copy, Debug, PartialEq, Eq)]
pub enum Kind {
    Public = 1,
    Private = 2,
    Sealed = 3,
    Bundle = 4,
    Short = 5,
}

impl TryFrom<u32> for Kind {
    type Error = Refusal;

    ghost try_from_gives = { KindOf };

    fn try_from(number: u32) -> Result<Self, Refusal> {
        match number {
            1 => Ok(Kind::Public),
            2 => Ok(Kind::Private),
            3 => Ok(Kind::Sealed),
            4 => Ok(Kind::Bundle),
            5 => Ok(Kind::Short),
            _ => Err(Refusal::KindNotWanted),
        }
    }
}

impl Kind {
    pub fn number(self) -> u32
        ensures { result ≡ number_of_kind self }
    {
        self as u32
    }

    // The sets of its arrays, in stored order.
    #[tactic(auto, unfolding(crate::specs::Kinds::arrays_of))]
    pub fn arrays(self) -> &'static [ArraySet]
        ensures { result.now ≡ arrays_of (number_of_kind self) }
    {
        match self {
            Kind::Public | Kind::Sealed | Kind::Short => &[ArraySet::ReducedModuloQ],
            Kind::Private => &[
                ArraySet::F,
                ArraySet::ReducedModulo2,
                ArraySet::ReducedModuloQ,
                ArraySet::G,
            ],
            Kind::Bundle => &[],
        }
    }
}
