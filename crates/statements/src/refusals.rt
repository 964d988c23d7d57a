// The check that a part of the line fails, and the paper's number of it (specs/Judging.antt).
ghost use Rattle.std.specs.Prelude.{◌≡◌};
ghost use Rattle.codes.specs.Refusals.{number};
ghost use Rattle.statements.specs.Judging.{operands_failure, worth_failure, form_failure, items_failure, number_of};

use super::Failure;
use codes::refusals::Refusal;
use expressions::{Fault, Malformed};
use items::ItemsFault;
use operands::OperandsFault;

impl From<OperandsFault> for Failure {
    ghost from_gives = { λ why f. f ≡ operands_failure why };

    fn from(why: OperandsFault) -> Failure {
        match why {
            OperandsFault::WrongForm => Failure::WrongForm,
            OperandsFault::WrongCount => Failure::WrongCount,
            OperandsFault::WrongKind(place) => Failure::WrongKind(place),
            OperandsFault::OutOfRange => Failure::OutOfRange,
        }
    }
}

impl From<Fault> for Failure {
    ghost from_gives = { λ why f. f ≡ worth_failure why };

    fn from(why: Fault) -> Failure {
        match why {
            Fault::OutOfRange => Failure::OutOfRange,
            Fault::ByZero => Failure::ByZero,
        }
    }
}

impl From<Malformed> for Failure {
    ghost from_gives = { λ why f. f ≡ form_failure why };

    fn from(why: Malformed) -> Failure {
        match why {
            Malformed::WrongForm => Failure::WrongForm,
            Malformed::TooDeep => Failure::TooDeep,
        }
    }
}

impl From<ItemsFault> for Failure {
    ghost from_gives = { λ why f. f ≡ items_failure why };

    fn from(why: ItemsFault) -> Failure {
        match why {
            ItemsFault::WrongForm => Failure::WrongForm,
            ItemsFault::OutOfRange => Failure::OutOfRange,
        }
    }
}

impl From<Failure> for Refusal {
    ghost from_gives = { λ f r. number r ≡ number_of f };

    fn from(f: Failure) -> Refusal {
        match f {
            Failure::UnknownWord => Refusal::UnknownWord,
            Failure::WrongForm => Refusal::WrongForm,
            Failure::WrongCount => Refusal::WrongCount,
            Failure::WrongKind(_) => Refusal::WrongKind,
            Failure::TooDeep => Refusal::TooDeep,
            Failure::OutOfRange | Failure::ResultOut => Refusal::OutOfRange,
            Failure::ByZero => Refusal::ByZero,
        }
    }
}

// The number as a function: its promise is cited by the crates above.
pub fn number_of(f: Failure) -> u8
    ensures { result ≡ number_of f }
{
    u8::from(Refusal::from(f))
}
