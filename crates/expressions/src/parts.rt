// Sums, products and factors (specs/Inner/Parts.antt). The three readers call each other; the room for parentheses falls.
ghost use Rattle.std.specs.Prelude.{◌≡◌};
ghost use Rattle.numerals.specs.Reading.{upto};
ghost use Rattle.expressions.specs.Places.{evaluate};
ghost use Rattle.expressions.specs.Inner.Parts.{factors, products, sums, Says};

use super::symbols::symbol_of;
use super::worths::{combined, found_at, number_worth};
use super::{Found, Malformed, Operation, Symbol};
use numerals::{Cursor, Read};
use tokens::tokens::next_token;

// A further part, joined to what stands to its left by a mark at a place.
fn joined(at: usize, o: Operation, left: Read<Found>, further: Read<Found>) -> Read<Found>
    ensures { result ≡ upto (evaluate at o left.value further.value) further.next }
{
    Read {
        value: combined(at, o, left.value, further.value),
        next: further.next,
    }
}

// `factor` and `product` are parts of `sum` once built: a level of parentheses takes one frame of the stack, and what a part hands to the next
// does not go through memory.
#[inline(always)]
#[cycle(factor_product_sum)]
fn factor(s: &[u8], from: Cursor, room: u32) -> Result<Read<Found>, Malformed>
    ensures { Says factors factors s.now from.at room result }
{
    let t = next_token(s, from);
    match symbol_of(t.kind) {
        Symbol::Number(v) => Ok(Read {
            value: found_at(t.start, number_worth(v)),
            next: t.next,
        }),
        Symbol::Opens => {
            if room == 0 {
                return Err(Malformed::TooDeep);
            }
            let inside = sum(s, t.next, room - 1)?;
            let shut = next_token(s, inside.next);
            let Symbol::Shuts = symbol_of(shut.kind) else {
                return Err(Malformed::WrongForm);
            };
            Ok(Read {
                value: inside.value,
                next: shut.next,
            })
        }
        _ => Err(Malformed::WrongForm),
    }
}

// `product` and `sum` stay two: they differ in the mark that goes on and in the reader of an operand, and one reader of both would
// have to be told which at each call of the cycle. Their loops have no list to go over: each token is read where the part before it
// ends.
#[inline(always)]
#[cycle(factor_product_sum)]
fn product(s: &[u8], from: Cursor, room: u32) -> Result<Read<Found>, Malformed>
    ensures { Says products products s.now from.at room result }
{
    let mut read = factor(s, from, room)?;
    loop {
        let mark = next_token(s, read.next);
        let Symbol::Products(o) = symbol_of(mark.kind) else {
            return Ok(read);
        };
        read = joined(mark.start, o, read, factor(s, mark.next, room)?);
    }
}

#[cycle(factor_product_sum)]
pub(crate) fn sum(s: &[u8], from: Cursor, room: u32) -> Result<Read<Found>, Malformed>
    ensures { Says sums sums s.now from.at room result }
{
    let mut read = product(s, from, room)?;
    loop {
        let mark = next_token(s, read.next);
        let Symbol::Sums(o) = symbol_of(mark.kind) else {
            return Ok(read);
        };
        read = joined(mark.start, o, read, product(s, mark.next, room)?);
    }
}
