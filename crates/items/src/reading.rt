// The items that follow DATA (specs/Items.antt, specs/Reading.antt).
ghost use Rattle.std.specs.Prelude.{◌≡◌};
ghost use Rattle.tokens.specs.Reading.{tokens_from};
ghost use Rattle.items.specs.Reading.{items_read};

use super::ItemsFault;
use super::single::item;
use numerals::{Cursor, Read};
use tokens::Follows;
use tokens::commas::follows;

// How many cells they take. A number out of range is refused only once the form of all that follows is right: 3 comes before 6.
pub fn items(s: &[u8], from: Cursor) -> Result<usize, ItemsFault>
    ensures { result ≡ items_read s.now (tokens_from s.now from.at) }
{
    let mut at = from; // no `for`: each item is read where the one before it ends
    let mut cells = 0;
    let mut fit = true;
    loop {
        let Read { value, next } = item(s, at).ok_or(ItemsFault::WrongForm)?;
        cells += value.cells;
        fit &= value.fits;
        match follows(s, next) {
            Follows::Over if fit => return Ok(cells),
            Follows::Over => return Err(ItemsFault::OutOfRange),
            Follows::Neither => return Err(ItemsFault::WrongForm),
            Follows::Comma(after) => at = after,
        }
    }
}
