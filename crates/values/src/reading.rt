// The value at a cursor (specs/Values.antt, specs/Reading.antt).
ghost use Rattle.std.specs.Prelude.{◌≡◌};
ghost use Rattle.values.specs.Reading.{minus_at, value_at};

use super::{Name, Value};
use numerals::{Cursor, Numeral, Radix, Read};
use tokens::Kind;
use tokens::tokens::next_token;

// The number whose `-` ends at a cursor: decimal digits follow directly.
#[tactic(auto, unfolding(crate::specs::Reading::minus_at))]
fn below_zero(s: &[u8], from: Cursor) -> Option<Read<Value>>
    ensures { result ≡ minus_at s.now from.at }
{
    let t = next_token(s, from);
    match t.kind {
        Kind::Number(magnitude, Radix::Decimal) if t.directly => {
            let number = Numeral {
                negative: true,
                radix: Radix::Decimal,
                magnitude,
            };
            Some(Read {
                value: Value::Number(number),
                next: t.next,
            })
        }
        _ => None,
    }
}

// The value at a cursor, with the cursor after it. None: no value stands there.
#[tactic(auto, unfolding(crate::specs::Reading::value_at))]
pub fn value(s: &[u8], from: Cursor) -> Option<Read<Value>>
    ensures { result ≡ value_at s.now from.at }
{
    let t = next_token(s, from);
    let next = t.next;
    match t.kind {
        Kind::Word => Some(Read {
            value: Value::Label(Name {
                start: t.start,
                end: next.at,
            }),
            next,
        }),
        Kind::Number(magnitude, radix) => {
            let number = Numeral {
                negative: false,
                radix,
                magnitude,
            };
            Some(Read {
                value: Value::Number(number),
                next,
            })
        }
        Kind::Mark(b'-') => below_zero(s, next),
        _ => None,
    }
}
