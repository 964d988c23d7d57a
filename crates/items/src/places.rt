// Where the first number out of range stands among DATA's items (specs/Places.antt), for a refusal's column.
ghost use Rattle.std.specs.Prelude.{◌&&◌, ◌≡◌};
ghost use Rattle.tokens.specs.Reading.{tokens_from};
ghost use Rattle.items.specs.Places.{is_comma, starts_out, number_out_in};

use super::single::item;
use numerals::Cursor;
use tokens::Kind;
use tokens::tokens::next_token;

fn is_comma(kind: Kind) -> bool
    ensures { result ≡ is_comma kind }
{
    matches!(kind, Kind::Mark(b','))
}

// Whether an item begins at a cursor, and is out of range.
fn out_at(s: &[u8], from: Cursor, begins: bool) -> bool
    ensures { result ≡ (begins && starts_out (tokens_from s.now from.at)) }
{
    begins && item(s, from).is_some_and(|read| !read.value.fits)
}

// Where the first item out of range starts.
pub fn number_out(s: &[u8], from: Cursor) -> usize
    ensures { result ≡ number_out_in (tokens_from s.now from.at) }
{
    let mut at = from; // no `for`: each token is read where the one before it ends
    let mut begins = true;
    loop {
        let t = next_token(s, at);
        if out_at(s, at, begins) {
            return t.start;
        }
        begins = match t.kind {
            Kind::End | Kind::Stray => return 0,
            kind => is_comma(kind),
        };
        at = t.next;
    }
}
