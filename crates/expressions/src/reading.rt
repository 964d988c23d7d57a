// The expression from a cursor on (specs/Reading.antt).
ghost use Rattle.std.specs.Prelude.{◌≡◌};
ghost use Rattle.tokens.specs.Reading.{tokens_from};
ghost use Rattle.expressions.specs.Reading.{expression_read};

use super::parts::sum;
use super::scanning::right_form;
use super::symbols::is_end;
use super::worths::plain_worth;
use super::{Malformed, Worth};
use codes::limits::DEEPEST;
use numerals::Cursor;
use tokens::tokens::next_token;

// What the tokens of a line from a cursor on are as an expression. Only where parentheses are too deep is the row scanned once
// more, for its form.
pub fn expression(s: &[u8], from: Cursor) -> Result<Worth, Malformed>
    ensures { result ≡ expression_read (tokens_from s.now from.at) }
{
    match sum(s, from, DEEPEST) {
        Ok(read) if is_end(next_token(s, read.next).kind) => Ok(plain_worth(read.value)),
        Err(Malformed::TooDeep) if right_form(s, from) => Err(Malformed::TooDeep),
        _ => Err(Malformed::WrongForm),
    }
}
