// Why a source is refused, with the paper's number (specs/Refusals.antt).
ghost use Rattle.std.specs.Prelude.{◌≡◌};
ghost use Rattle.codes.specs.Refusals.{number};

// In the order of the numbers: M or the map's length wrong, a source too long; what a line is refused for; an opcode's number of operands,
// and their kinds.
#[derive(Clone, Copy, Debug, PartialEq, Eq)]
pub enum Refusal {
    BadLoan,
    LongSource,
    WrongForm,
    UnknownWord,
    OutOfRange,
    ByZero,
    TooDeep,
    LabelAgain,
    LabelPastLimits,
    PastMemory,
    ClaimedTwice,
    UnknownLabel,
    FarLabel,
    WrongCount,
    WrongKind,
}

impl From<Refusal> for u8 {
    ghost from_gives = { λ why n. n ≡ number why };

    fn from(why: Refusal) -> u8 {
        match why {
            Refusal::BadLoan => 1,
            Refusal::LongSource => 2,
            Refusal::WrongForm => 3,
            Refusal::UnknownWord => 4,
            Refusal::OutOfRange => 6,
            Refusal::ByZero => 7,
            Refusal::TooDeep => 8,
            Refusal::LabelAgain => 9,
            Refusal::LabelPastLimits => 10,
            Refusal::PastMemory => 11,
            Refusal::ClaimedTwice => 12,
            Refusal::UnknownLabel => 13,
            Refusal::FarLabel => 14,
            Refusal::WrongCount => 15,
            Refusal::WrongKind => 16,
        }
    }
}
