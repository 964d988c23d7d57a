// The single mark at a cursor (specs/Marks.antt): the byte after the blanks tells, and no token is read.
ghost use Rattle.std.specs.Prelude.{◌≡◌};
ghost use Rattle.tokens.specs.Bytes.{is_mark};
ghost use Rattle.tokens.specs.Reading.{token_at};
ghost use Rattle.tokens.specs.Marks.{mark_of};

use super::tokens::skip;
use numerals::bytes::rank_of;
use numerals::{Cursor, Read};

// By rank, a byte of a word is none.
#[tactic(auto, unfolding(crate::specs::Bytes::is_mark, crate::specs::Bytes::is_blank))]
pub fn is_mark(b: u8) -> bool
    ensures { result ≡ is_mark b }
{
    if b < 33 || 126 < b || b == b'"' || b == b';' {
        return false;
    }
    17 <= rank_of(b)
}

// The mark at a cursor, with the cursor after it. None: no mark stands there.
pub fn mark_at(s: &[u8], from: Cursor) -> Option<Read<u8>>
    ensures { result ≡ mark_of (token_at s.now from.at) }
{
    let at = skip(s, from.at);
    let b = *s.get(at)?;
    if is_mark(b) {
        return Some(Read {
            value: b,
            next: Cursor { at: at + 1 },
        });
    }
    None
}
