// The list of operands that follows an opcode (specs/Operands.antt): the first two of them, and how many they are.
ghost use Rattle.std.specs.Prelude.{◌≡◌};
ghost use Rattle.tokens.specs.Reading.{tokens_from};
ghost use Rattle.operands.specs.Reading.{walk, operands_of};
ghost use Rattle.operands.specs.Reading as W;
ghost use Rattle.operands.specs.Inner.Peeks.{keep, listed, none_listed};

use super::shapes::operand;
use super::{FirstTwo, Written};
use numerals::{Cursor, Read};
use tokens::Follows;
use tokens::commas::follows;

#[tactic(auto, unfolding(crate::specs::Inner::Peeks::keep))]
fn with_operand(all: FirstTwo, o: Written) -> FirstTwo
    ensures { result ≡ keep all o }
{
    match all.count {
        0 => FirstTwo {
            count: 1,
            first: o,
            ..all
        },
        1 => FirstTwo {
            count: 2,
            second: o,
            ..all
        },
        _ => FirstTwo { count: 3, ..all },
    }
}

// One operand or more, parted by commas, up to the line's end.
fn some_operands(s: &[u8], from: Cursor, none: FirstTwo) -> Option<FirstTwo>
    ensures { result ≡ listed none (walk s.now W.operand (tokens_from s.now from.at)) }
{
    let mut at = from;
    let mut all = none;
    // no iterator: where the next operand starts is known only when this one is read
    loop {
        let Read { value: o, next } = operand(s, at)?;
        all = with_operand(all, o);
        match follows(s, next) {
            Follows::Over => return Some(all),
            Follows::Neither => return None,
            Follows::Comma(after) => at = after,
        }
    }
}

// The operands that follow an opcode: none, or some.
pub(crate) fn operands(s: &[u8], from: Cursor) -> Option<FirstTwo>
    ensures { result ≡ listed none_listed (operands_of s.now (tokens_from s.now from.at)) }
{
    let none = FirstTwo {
        count: 0,
        first: Written::Absent,
        second: Written::Absent,
    };
    match follows(s, from) {
        Follows::Over => Some(none),
        _ => some_operands(s, from, none),
    }
}
