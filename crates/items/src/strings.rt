// How many characters a string has (tokens' specs/Strings.antt).
ghost use Rattle.std.specs.Prelude.{◌≡◌, List, ℕ, length, drop};
ghost use Rattle.tokens.specs.Strings.{Characters};

use numerals::Cursor;
use tokens::Character;
use tokens::strings::character;

// The characters of the string whose opening quote stands right before a place.
pub(crate) fn character_count(s: &[u8], from: usize) -> usize
    ensures { (cs rest : List ℕ) → Characters (drop from s.now) cs rest → result ≡ length cs }
{
    let mut at = Cursor { at: from }; // no `for`: each character is read where the one before it ends
    let mut count = 0;
    while let Character::Stands(_, next) = character(s, at) {
        at = next;
        count += 1;
    }
    count
}
