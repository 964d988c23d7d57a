// The refused line, shown with a caret under the column (specs/Excerpts.antt).
ghost use Rattle.std.specs.Prelude.{◌≡◌, [], ◌∷◌, map, ◌+◌, ◌≤◌, ◌<◌, length};
ghost use Rattle.texts.specs.Lines.{text_of};
ghost use Rattle.texts.specs.Inner.Wrote.{Wrote};
ghost use Rattle.desk.specs.Excerpts.{shown_byte, shown_from, most_shown, indented, caret_under, excerpt_text};
ghost use Rattle.desk.specs.Refusals.{AtHead};

use texts::writing::piece;

// A byte as it is shown.
#[tactic(auto, unfolding(crate::specs::Excerpts::shown_byte))]
fn shown_byte(b: u8) -> u8
    ensures { result ≡ shown_byte b }
{
    match b {
        b'\t' => b' ',
        b' '..=b'~' => b,
        _ => b'?',
    }
}

const MOST_SHOWN: usize = 80;

// Where the part of a line that is shown starts.
#[tactic(auto, unfolding(crate::specs::Excerpts::shown_from))]
fn shown_from(size: usize, column: usize) -> usize
    ensures { result ≡ shown_from size column }
{
    if size <= MOST_SHOWN {
        return 0;
    }
    column.saturating_sub(73)
}

// Where it ends.
fn shown_end(size: usize, from: usize) -> usize
    requires { from ≤ size }
    ensures { (result ≤ size) × (from ≤ result) × (result ≤ from + most_shown) × (result < from + most_shown → result ≡ size) }
{
    from + (size - from).min(MOST_SHOWN)
}

// Each byte of a part, as it is shown. An index: the byte's place in the room goes with it.
fn put_shown(room: &mut [u8], at: usize, part: &[u8]) -> usize
    requires { at + length part.now ≤ length room.old }
    ensures { Wrote room.old at (map shown_byte part.now) room.new result }
{
    for k in 0..part.len() {
        room[at + k] = shown_byte(part[k]);
    }
    at + part.len()
}

// The line's part, at the head of a room.
fn put_part(room: &mut [u8], part: &[u8]) -> usize
    requires { (length part.now ≤ most_shown) × (171 ≤ length room.old) }
    ensures { Wrote room.old 0 (text_of (indented (map shown_byte part.now) ∷ [])) room.new result × (result ≤ 85) }
{
    let first = piece(room, 0, b"    ");
    let last = put_shown(room, first, part);
    piece(room, last, b"\n")
}

// The caret under a place of it.
fn put_caret(room: &mut [u8], at: usize, n: usize) -> usize
    requires { (n ≤ most_shown) × (at + 86 ≤ length room.old) }
    ensures { Wrote room.old at (text_of (indented (caret_under n) ∷ [])) room.new result }
{
    let blanks = [b' '; MOST_SHOWN];
    let first = piece(room, at, b"    ");
    let caret = piece(room, first, &blanks[..n]);
    piece(room, caret, b"^\n")
}

// Both: 171 bytes at most.
pub(crate) fn excerpt(room: &mut [u8], line: &[u8], column: usize) -> usize
    requires { 171 ≤ length room.old }
    ensures { AtHead (excerpt_text line.now column) room.old room.new result }
{
    let Some(place) = column.checked_sub(1) else {
        return 0;
    };
    if line.len() < place {
        return 0;
    }
    let from = shown_from(line.len(), column);
    let end = shown_end(line.len(), from);
    let next = put_part(room, &line[from..end]);
    put_caret(room, next, place - from)
}
