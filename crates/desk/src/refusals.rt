// A refusal told: three lines on standard output, and on standard error a sentence (specs/Refusals.antt) and the line it is about.
ghost use Rattle.std.specs.Prelude.{◌≡◌, ◌≤◌, ◌%◌, length, true, OnOk};
ghost use Rattle.std.specs.Io.KnownBytes.{Appends};
ghost use Rattle.texts.specs.Inner.Wrote.{Wrote};
ghost use Rattle.columns.specs.Columns.{line_numbered};
ghost use Rattle.desk.specs.Excerpts.{excerpt_text};
ghost use Rattle.desk.specs.Refusals.{line_told, column_told, reason_of, name_told, sentence_text, AtHead, printed_of, told_of};

use super::excerpts::excerpt;
use super::printing::{put, try_write, try_write_error};
use columns::Column;
use columns::lines::line_start;
use sources::Line;
use std::io;
use std::io::Write;
use texts::writing::field;
use tokens::lines::line_end;

// A refusal of a source: its number, and where in the source it points.
#[derive(Clone, Copy)]
pub struct Refusal {
    pub number: u8,
    pub line: Line,
    pub column: Column,
}

// "Any other [M] prints refusal 1, line 0".
pub const WRONG_M: Refusal = Refusal {
    number: 1,
    line: Line(0),
    column: Column(0),
};

// A source as it is lent: FILE's name, and its bytes.
#[derive(Clone, Copy)]
pub struct Source<'a> {
    pub path: &'a [u8],
    pub text: &'a [u8],
}

// Room for a sentence behind the file's name.
const ROOM: usize = 4352;

// A source has fewer lines, and a line fewer bytes, than 32 bits count.
fn narrow(n: usize) -> u32
    ensures { result ≡ n % 4294967296 }
{
    (n % 4294967296) as u32
}

// "A refusal prints `refused=` and `line=`, one line each", and "a third line `column=`": 53 bytes at most.
fn lines(room: &mut [u8], refusal: Refusal) -> usize
    requires { 53 ≤ length room.old }
    ensures { AtHead (printed_of refusal) room.old room.new result }
{
    let second = field(room, 0, b"refused=", refusal.number as u32);
    let third = field(room, second, b"\nline=", narrow(refusal.line.0));
    let last = field(room, third, b"\ncolumn=", narrow(refusal.column.0));
    put(room, last, b"\n")
}

// Why a source is refused: document 01's table has the number, the words are ours.
#[tactic(auto, unfolding(crate::specs::Refusals::reason_of, crate::specs::Refusals::reasons))]
fn reason(refusal: u8) -> &'static [u8]
    ensures { result.now ≡ reason_of refusal }
{
    match refusal {
        1 => b"M is no decimal number from 1 to 16384",
        2 => b"a source of more than 32768 bytes",
        3 => b"wrong form, or an unknown register",
        4 => b"the statement's word is unknown",
        6 => b"a number, an expression or a label's address is out of range",
        7 => b"an expression divides by zero",
        8 => b"parentheses more than 32 deep",
        9 => b"a label that was given before",
        10 => b"a label of more than 64 bytes, or the 513th",
        11 => b"past the last cell",
        12 => b"a cell claimed twice",
        13 => b"an unknown label",
        14 => b"a $label outside -32768..32767",
        15 => b"the opcode takes another number of operands",
        16 => b"an operand of a kind that the opcode does not take there",
        _ => b"an unknown refusal",
    }
}

// The file's name, at the head of a room. No path that the system hands over is too long.
fn name(room: &mut [u8], path: &[u8]) -> usize
    requires { 4096 ≤ length room.old }
    ensures { Wrote room.old 0 (name_told path.now) room.new result × (result ≤ 4096) }
{
    if 4096 < path.len() {
        return 0;
    }
    put(room, 0, path)
}

// `FILE:LINE:COLUMN: refused 12: a cell claimed twice`: 105 bytes at most behind the name.
fn sentence(room: &mut [u8], path: &[u8], refusal: Refusal) -> usize
    requires { 4201 ≤ length room.old }
    ensures { AtHead (sentence_text path.now refusal.number (line_told refusal.line) (column_told refusal.column)) room.old room.new result }
{
    let first = name(room, path);
    let second = field(room, first, b":", narrow(refusal.line.0));
    let refused = field(room, second, b":", narrow(refusal.column.0));
    let told = field(room, refused, b": refused ", refusal.number as u32);
    let colon = put(room, told, b": ");
    let last = put(room, colon, reason(refusal.number));
    put(room, last, b"\n")
}

// The refused line and the caret, found in the source once more.
fn line_shown(room: &mut [u8], source: &[u8], refusal: Refusal) -> usize
    requires { 171 ≤ length room.old }
    ensures { AtHead (excerpt_text (line_numbered source.now refusal.line.0) refusal.column.0) room.old room.new result }
{
    let from = line_start(source, refusal.line.0);
    let end = line_end(source, from);
    excerpt(room, &source[from..end], refusal.column.0)
}

// What is told of a refusal; the sentence and the line only where the three lines could be written, and the line whatever became of the
// sentence. Output that cannot be written is told, and the first failure handed back. What becomes of it is the operating system's.
pub fn tell_refusal<O: Write, E: Write>(
    output: &mut O,
    errors: &mut E,
    source: Source<'_>,
    refusal: Refusal,
) -> io::Result<()>
    ensures printed { OnOk result (Appends (O.contents output.old) (O.contents output.new) (printed_of refusal)) }
    ensures told { OnOk result (Appends (E.contents errors.old) (E.contents errors.new) (told_of source.entry.path.now source.entry.text.now refusal)) }
{
    let mut room = [0; ROOM];
    let end = lines(&mut room, refusal);
    try_write(output, errors, &room[..end])?;
    let told = sentence(&mut room, source.path, refusal);
    let first = try_write_error(errors, &room[..told]);
    let shown = line_shown(&mut room, source.text, refusal);
    let last = try_write_error(errors, &room[..shown]);
    first?;
    last
}

// The same, where nothing is left to do about a failure; answers whether all of it was taken.
pub fn print_refusal<O: Write, E: Write>(
    output: &mut O,
    errors: &mut E,
    source: Source<'_>,
    refusal: Refusal,
) -> bool
    ensures printed { result ≡ true → Appends (O.contents output.old) (O.contents output.new) (printed_of refusal) }
    ensures told { result ≡ true → Appends (E.contents errors.old) (E.contents errors.new) (told_of source.entry.path.now source.entry.text.now refusal) }
{
    tell_refusal(output, errors, source, refusal).is_ok()
}
