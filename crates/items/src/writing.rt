// The cells of the items that follow DATA (specs/Writing.antt).
ghost use Rattle.std.specs.Prelude.{true, ◌≡◌, List, [], ◌∷◌, ◌++◌, ℕ, ◌+◌, ◌≤◌, drop, set};
ghost use Rattle.std.proofs.lemmas.List.Edits.{sets};
ghost use Rattle.tokens.specs.Strings.{Characters};
ghost use Rattle.tokens.specs.Reading.{token_at, tokens_from};
ghost use Rattle.items.specs.Reading.{item, walk};
ghost use Rattle.items.specs.Inner.Turns.{string_at, item_at, accepted, cells_at};
ghost use Rattle.items.specs.Writing.{cells_from};

use super::reading::items;
use super::single::item;
use numerals::reading::kept;
use numerals::{Cursor, Read};
use tokens::commas::follows;
use tokens::strings::character;
use tokens::tokens::next_token;
use tokens::{Character, Follows, Kind};
use values::Value;
use values::reading::value;

// The cell k places after a place; what does not fit is left out. Two numbers, since their sum may not fit a usize.
fn put(row: &mut [u16], at: usize, k: usize, v: u16)
    ensures { row.new ≡ set row.old (at + k) v }
{
    if k < row.len().saturating_sub(at) {
        row[at + k] = v;
    }
}

// The string whose opening quote stands right before a place: "a cell a character and a 0 cell".
fn write_string(s: &[u8], from: usize, row: &mut [u16], at: usize, k: usize)
    requires { k ≤ from }
    ensures { (cs rest : List ℕ) → Characters (drop from s.now) cs rest
        → row.new ≡ sets row.old (at + k) (cs ++ (0 ∷ [])) }
{
    let mut inside = Cursor { at: from }; // no `for`: each character is read where the one before it ends
    let mut n = k;
    while let Character::Stands(b, next) = character(s, inside) {
        put(row, at, n, b.into());
        inside = next;
        n += 1;
    }
    put(row, at, n, 0);
}

// The string at a cursor, if one is there.
fn write_text(s: &[u8], from: Cursor, row: &mut [u16], at: usize, k: usize)
    requires { k ≤ from.at }
    ensures { row.new ≡ sets row.old (at + k) (cells_at (string_at s.now (token_at s.now from.at))) }
{
    let t = next_token(s, from);
    if let Kind::Text = t.kind {
        write_string(s, t.start + 1, row, at, k);
    }
}

// The item at a cursor; a number is "kept modulo 65536".
#[tactic(auto, unfolding(crate::specs::Inner::Turns::item_at, numerals::specs::Numbers::kept_of))]
fn write_item(s: &[u8], from: Cursor, row: &mut [u16], at: usize, k: usize)
    requires { k ≤ from.at }
    ensures { row.new ≡ sets row.old (at + k) (cells_at (item_at s.now from.at)) }
{
    let Some(read) = value(s, from) else {
        return write_text(s, from, row, at, k)
    };
    if let Value::Number(n) = read.value {
        if let Some(cell) = kept(n) {
            put(row, at, k, cell);
        }
    }
}

// The items at a cursor, one after the other. No more cells are written than bytes passed, so that k does not wrap.
fn write_items(s: &[u8], from: Cursor, row: &mut [u16], at: usize)
    requires { accepted (walk s.now item (tokens_from s.now from.at)) ≡ true }
    ensures { row.new ≡ sets row.old at (cells_from s.now (tokens_from s.now from.at)) }
{
    let mut item_at = from; // no `for`: each item is read where the one before it ends
    let mut k = 0;
    while let Some(Read { value, next }) = item(s, item_at) {
        write_item(s, item_at, row, at, k);
        k += value.cells;
        let Follows::Comma(after) = follows(s, next) else {
            return
        };
        item_at = after;
    }
}

// The cells of the items that follow DATA, into a lent row from a place on; what does not fit is left out, and items that
// are refused write nothing.
pub fn write_cells(s: &[u8], from: Cursor, row: &mut [u16], at: usize)
    ensures { row.new ≡ sets row.old at (cells_from s.now (tokens_from s.now from.at)) }
{
    if items(s, from).is_ok() {
        write_items(s, from, row, at);
    }
}
