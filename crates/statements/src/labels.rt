// A line's label, and the token after it (specs/Reading.antt, specs/Inner/Parts.antt).
ghost use Rattle.std.specs.Prelude.{◌≡◌};
ghost use Rattle.statements.specs.Reading.{is_word};
ghost use Rattle.statements.specs.Inner.Parts.{colon_at, LabelDone};

use super::Labelled;
use numerals::Cursor;
use tokens::tokens::next_token;
use tokens::{Kind, Token};
use values::Name;

pub fn is_word(k: Kind) -> bool
    ensures { result ≡ is_word k }
{
    matches!(k, Kind::Word)
}

// Whether a `:` stands at a place; past the line's end none does.
fn colon_at(s: &[u8], at: usize) -> bool
    ensures { result ≡ colon_at s.now at }
{
    at < s.len() && s[at] == b':'
}

// The line's first token, if it is a word directly followed by `:`; without a label the statement begins with that token.
pub fn label(s: &[u8]) -> Labelled
    ensures { LabelDone s.now result }
{
    let w = next_token(s, Cursor { at: 0 });
    let end = w.next.at;
    if !is_word(w.kind) || !colon_at(s, end) {
        return Labelled {
            label: None,
            word: w,
        };
    }
    Labelled {
        label: Some(Name {
            start: w.start,
            end,
        }),
        word: next_token(s, Cursor { at: end + 1 }),
    }
}
