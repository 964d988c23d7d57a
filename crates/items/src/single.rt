// One item (specs/Inner/Turns.antt).
ghost use Rattle.std.specs.Prelude.{◌≡◌};
ghost use Rattle.numerals.specs.Numbers.{value_of, in_range};
ghost use Rattle.tokens.specs.Reading.{token_at};
ghost use Rattle.items.specs.Inner.Turns.{string_at, item_at, measured};

use super::Measure;
use super::strings::character_count;
use numerals::reading::kept;
use numerals::{Cursor, Numeral, Read};
use tokens::Kind;
use tokens::tokens::next_token;
use values::Value;
use values::reading::value;

// "Range -32768..65535".
#[tactic(auto, unfolding(numerals::specs::Numbers::kept_of))]
fn is_in_range(n: Numeral) -> bool
    ensures { result ≡ in_range (value_of n) }
{
    kept(n).is_some()
}

// The string at a cursor: "a cell a character and a 0 cell".
fn string_item(s: &[u8], from: Cursor) -> Option<Read<Measure>>
    ensures { result ≡ measured (string_at s.now (token_at s.now from.at)) }
{
    let t = next_token(s, from);
    match t.kind {
        Kind::Text => {
            let cells = character_count(s, t.start + 1) + 1;
            Some(Read {
                value: Measure { cells, fits: true },
                next: t.next,
            })
        }
        _ => None,
    }
}

// The item at a cursor; a label is none. Part of its callers once built: what it hands over does not go through memory.
#[inline(always)]
#[tactic(auto, unfolding(crate::specs::Inner::Turns::item_at))]
pub(crate) fn item(s: &[u8], from: Cursor) -> Option<Read<Measure>>
    ensures { result ≡ measured (item_at s.now from.at) }
{
    let Some(Read { value, next }) = value(s, from) else {
        return string_item(s, from)
    };
    match value {
        Value::Number(n) => {
            let fits = is_in_range(n);
            Some(Read {
                value: Measure { cells: 1, fits },
                next,
            })
        }
        Value::Label(_) => None,
    }
}
