// The columns of what a line has of its own: its label, its statement's word, the mark of an operand (specs/Columns.antt).
ghost use Rattle.std.specs.Prelude.{◌≡◌, get_or};
ghost use Rattle.tokens.specs.Bytes.{is_blank};
ghost use Rattle.columns.specs.Columns.{column_at, label_column, word_column, mark_before};

use super::Column;
use statements::labels::{is_word, label};
use tokens::tokens::is_blank;

// The column of a place, which stands in the line or directly behind it; any other has none.
#[tactic(auto, unfolding(crate::specs::Columns::column_at))]
pub(crate) fn column_at(line: &[u8], place: usize) -> Column
    ensures { result.0 ≡ column_at line.now place }
{
    if place <= line.len() {
        Column(place + 1)
    } else {
        Column(0)
    }
}

// The label's column; 0 where the line has none.
#[tactic(auto, unfolding(crate::specs::Columns::label_column))]
pub fn label_column(line: &[u8]) -> Column
    ensures { result.0 ≡ label_column line.now }
{
    match label(line).label {
        Some(n) => column_at(line, n.start),
        None => Column(0),
    }
}

// The column of the statement's word; 0 where the line has none.
#[tactic(auto, using(crate::proofs::Found::no_word_column, crate::proofs::Found::some_word_column), unfolding(crate::specs::Columns::word_column))]
pub fn word_column(line: &[u8]) -> Column
    ensures { result.0 ≡ word_column line.now }
{
    let w = label(line).word;
    if is_word(w.kind) {
        column_at(line, w.start)
    } else {
        Column(0)
    }
}

// Whether a blank stands at a place; past the line's end none does.
#[tactic(auto, unfolding(tokens::specs::Bytes::is_blank))]
fn blank_at(line: &[u8], at: usize) -> bool
    ensures { result ≡ is_blank (get_or line.now at 0) }
{
    at < line.len() && is_blank(line[at])
}

// The place, from 0, of what stands before the name that starts at a place: its operand's mark, with blanks between or none.
#[tactic(auto, using(crate::proofs::Found::blank_before, crate::proofs::Found::mark_stands, crate::proofs::Found::none_before))]
pub fn mark_before(line: &[u8], name: usize) -> usize
    ensures { result ≡ mark_before line.now name }
{
    for at in (0..name).rev() {
        if !blank_at(line, at) {
            return at;
        }
    }
    0
}
