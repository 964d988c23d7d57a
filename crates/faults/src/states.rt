// What a state says (specs/Forms.antt).
ghost use Rattle.std.specs.Prelude.{◌≡◌};
ghost use Rattle.faults.specs.Forms.{final, lives, is_start, is_ended};

use super::State;
use expressions::scanning::may_end;

// The line may end here.
pub(crate) fn is_final(st: State) -> bool
    ensures { result ≡ final st }
{
    match st {
        State::Start
        | State::Body
        | State::Field
        | State::AfterHash
        | State::Done
        | State::ItemDone
        | State::Ended => true,
        State::Expression(operand, height) => may_end(operand, height),
        _ => false,
    }
}

// Something goes on from here.
pub(crate) fn lives(st: State) -> bool
    ensures { result ≡ lives st }
{
    !matches!(st, State::Dead)
}

// A label may be next.
pub(crate) fn is_start(st: State) -> bool
    ensures { result ≡ is_start st }
{
    matches!(st, State::Start)
}

// All that follows is ignored.
pub(crate) fn is_ended(st: State) -> bool
    ensures { result ≡ is_ended st }
{
    matches!(st, State::Ended)
}
