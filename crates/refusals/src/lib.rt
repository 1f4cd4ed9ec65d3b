// The refusals of documents 01 and 02, each with its number. Which condition is tested where, and in what order, is in the crates of the calls.

#![tactic(auto)]

ghost use Rattle.std.specs.Prelude.{◌≡◌, [], ◌∷◌};
ghost use Rattle.refusals.specs.Numbers.{number_of, answered};
ghost use Rattle.refusals.specs.Outcomes.{number, outcome, ◌if◌};

#[derive(Clone, Copy, Debug, PartialEq, Eq)]
pub enum Refusal {
    CoefficientCountOutOfRange = 1,
    ModulusPartOutOfRange = 2,
    ModulusPartsBothEven = 3,
    SOutOfRange = 4,
    TOutOfRange = 5,
    BoundNotBelowNorm = 6,
    WrongLength = 7,
    FNotInItsSet = 8,
    GNotInItsSet = 9,
    PhiNotInItsSet = 10,
    NotReducedModulo2 = 11,
    NotReducedModuloQ = 12,
    NotInverseModulo2 = 13,
    NotInverseModuloQ = 14,
    SpareBitSet = 15,
    HeadTooShort = 16,
    MarkNotEiz = 17,
    VersionNotOne = 18,
    KindNotWanted = 19,
    ParametersDiffer = 20,
    ModulusZero = 21,
    ValueOutOfRange = 22,
    PlaceOrUnitOutOfRange = 23,
    PlaceOccursTwice = 24,
    StopOccursTwice = 25,
    ShortMessageTooLong = 26,
    NotAShortMessage = 27,
}

impl Refusal {
    // The document's number.
    pub fn number(self) -> u32
        ensures { result ≡ number_of self }
    {
        self as u32
    }

    // One check: this refusal, where its condition applies.
    pub fn when(self, applies: bool) -> Result<(), Refusal>
        ensures { answered result ≡ outcome (number_of self if applies ∷ []) tt }
    {
        if applies {
            return Err(self);
        }
        Ok(())
    }
}

// The document's number of what was answered, or 0 where nothing is refused.
pub fn status(answer: Result<(), Refusal>) -> u32
    ensures { result ≡ number (answered answer) }
{
    match answer {
        Ok(()) => 0,
        Err(refusal) => refusal.number(),
    }
}
