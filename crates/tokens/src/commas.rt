// What follows an operand or an item of DATA (specs/Commas.antt): the byte after the blanks tells, and no token is read.
ghost use Rattle.std.specs.Prelude.{◌≡◌};
ghost use Rattle.tokens.specs.Reading.{token_at};
ghost use Rattle.tokens.specs.Commas.{follows_of};

use super::Follows;
use super::tokens::skip;
use numerals::Cursor;

pub fn follows(s: &[u8], from: Cursor) -> Follows
    ensures { result ≡ follows_of (token_at s.now from.at) }
{
    let at = skip(s, from.at);
    let Some(&b) = s.get(at) else {
        return Follows::Over
    };
    match b {
        b';' => Follows::Over,
        b',' => Follows::Comma(Cursor { at: at + 1 }),
        _ => Follows::Neither,
    }
}
