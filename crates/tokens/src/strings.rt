// The character of a string at a cursor (specs/Strings.antt).
ghost use Rattle.std.specs.Prelude.{◌≡◌};
ghost use Rattle.tokens.specs.Reading.{character_at};

use super::Character;
use numerals::Cursor;

// What stands at a cursor inside a string.
#[tactic(auto, unfolding(crate::specs::Reading::character_at))]
pub fn character(s: &[u8], from: Cursor) -> Character
    ensures { result ≡ character_at s.now from.at }
{
    let at = from.at;
    let Some(&b) = s.get(at) else {
        return Character::Broken
    };
    match b {
        b'"' => Character::Closed(Cursor { at: at + 1 }),
        b'\\' => match s.get(at + 1) {
            Some(b'n') => Character::Stands(b'\n', Cursor { at: at + 2 }),
            _ => Character::Broken,
        },
        32..=126 => Character::Stands(b, Cursor { at: at + 1 }),
        _ => Character::Broken,
    }
}
