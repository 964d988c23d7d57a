// BUDGET.
ghost use Rattle.std.specs.Prelude.{◌≡◌};
ghost use Rattle.run.specs.Budgets.{budget_of, budget_asked};

use codes::limits::LARGEST_BUDGET;
use desk::arguments::{argument, count};
use numerals::bytes::rank_of;
use std::rt::Env;

// The budget where none is named.
const USUAL: u32 = 10000;

// The budget that a word names. None: it is no decimal number from 0 to 1,000,000.
fn budget_of(word: &[u8]) -> Option<u32>
    ensures { result ≡ budget_of word.now }
{
    if word.is_empty() {
        return None;
    }
    let mut steps = 0;
    for &b in word {
        let digit = rank_of(b);
        if 9 < digit {
            return None;
        }
        steps = steps * 10 + digit as u32;
        if LARGEST_BUDGET < steps {
            return None;
        }
    }
    Some(steps)
}

// The budget that a call of so many words asks for: FILE and M, or FILE, M and BUDGET. The program's own name counts too.
#[tactic(auto, unfolding(crate::specs::Budgets::budget_asked))]
fn asked(words: usize, third: &[u8]) -> Option<u32>
    ensures { result ≡ budget_asked words third.now }
{
    match words {
        3 => Some(USUAL),
        4 => budget_of(third),
        _ => None,
    }
}

// The budget that this call asks for, with a room for its word: one that is missing, or longer than the room, is empty.
pub(crate) fn budget(env: &impl Env, room: &mut [u8]) -> Option<u32> {
    asked(count(env), argument(env, 3, room))
}
