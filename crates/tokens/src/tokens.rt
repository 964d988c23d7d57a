// The token at a cursor (specs/Rows.antt, specs/Reading.antt).
ghost use Rattle.std.specs.Prelude.{◌≡◌, ◌+◌, ◌<◌, length, drop};
ghost use Rattle.numerals.specs.Reading.{unsigned_at};
ghost use Rattle.tokens.specs.Bytes.{is_blank};
ghost use Rattle.tokens.specs.Rows.{token};
ghost use Rattle.tokens.specs.Reading.{blanks, closing, number_token, string_token, token_here, token_at};

use super::strings::character;
use super::{Character, Kind, Token};
use numerals::bytes::{rank_of, run_end};
use numerals::{Cursor, Read};

#[tactic(auto, unfolding(crate::specs::Bytes::is_blank))]
pub fn is_blank(b: u8) -> bool
    ensures { result ≡ is_blank b }
{
    matches!(b, b' ' | b'\t' | b'\r')
}

// The place after the blanks that stand from a place on.
pub(crate) fn skip(s: &[u8], from: usize) -> usize
    ensures { result ≡ from + blanks (drop from s.now) }
{
    // no `position`: half as slow again where no blank stands, as before most tokens
    for i in from..s.len() {
        if !is_blank(s[i]) {
            return i;
        }
    }
    from.max(s.len())
}

// A token from a place to the place after it.
fn spanning(kind: Kind, start: usize, directly: bool, end: usize) -> Token
    ensures { result ≡ token kind start directly end }
{
    Token {
        kind,
        start,
        directly,
        next: Cursor { at: end },
    }
}

// The number that begins at a place.
fn number_token(s: &[u8], at: usize, directly: bool) -> Token
    ensures { result ≡ number_token (unsigned_at s.now at) at directly }
{
    match (Cursor { at }).unsigned(s) {
        Some(Read { value: n, next }) => spanning(
            Kind::Number(n.magnitude, n.radix),
            at,
            directly,
            next.at,
        ),
        None => spanning(Kind::Stray, at, directly, at),
    }
}

// The string whose opening quote stands at a place.
fn string_token(s: &[u8], at: usize, directly: bool) -> Token
    requires { at < length s.now }
    ensures { result ≡ string_token (closing (drop (at + 1) s.now)) at directly }
{
    let mut inside = Cursor { at: at + 1 }; // no `for`: each character is read where the one before it ends
    loop {
        match character(s, inside) {
            Character::Stands(_, next) => inside = next,
            Character::Closed(next) => return spanning(Kind::Text, at, directly, next.at),
            Character::Broken => return spanning(Kind::Stray, at, directly, at),
        }
    }
}

// The token that begins at a place where no blank stands.
fn token_here(s: &[u8], at: usize, directly: bool) -> Token
    ensures { result ≡ token_here s.now at directly }
{
    if s.len() <= at {
        return spanning(Kind::End, at, directly, at);
    }
    let b = s[at];
    // tests in turn, and no match: by the rank first, and then by the byte
    let rank = rank_of(b);
    if rank < 10 {
        return number_token(s, at, directly);
    }
    if rank < 17 {
        return spanning(Kind::Word, at, directly, run_end(s, at, 17));
    }
    if b == b'"' {
        return string_token(s, at, directly);
    }
    if b == b';' {
        return spanning(Kind::End, at, directly, at);
    }
    if b < 33 || 126 < b {
        return spanning(Kind::Stray, at, directly, at);
    }
    spanning(Kind::Mark(b), at, directly, at + 1)
}

// The first token from a cursor on, with the cursor after it.
pub fn next_token(s: &[u8], from: Cursor) -> Token
    ensures { result ≡ token_at s.now from.at }
{
    let start = from.at;
    let at = skip(s, start);
    let t = token_here(s, at, at == start);
    // part by part: as a whole it would go through memory with the bytes between its parts, which took a third of the time of a line
    Token {
        kind: t.kind,
        start: t.start,
        directly: t.directly,
        next: t.next,
    }
}
