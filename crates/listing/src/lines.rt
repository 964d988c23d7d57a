// The lines of a listing, written into a room that has place for them (specs/Lines.antt). Each function answers the place after what it
// wrote.
ghost use Rattle.std.specs.Prelude.{[], ◌∷◌, ◌++◌, ◌+◌, ◌≤◌, ◌<◌, length, ◌≡◌};
ghost use Rattle.codes.specs.Limits.{most_cells};
ghost use Rattle.numerals.specs.Bytes.{LF};
ghost use Rattle.texts.specs.Inner.Wrote.{Wrote};
ghost use Rattle.listing.specs.Lines.{line_of};
ghost use Rattle.listing.specs.Inner.Begins.{line_text, Addressed, longest_lines};

use super::Entry;
use super::operands::operands;
use super::spelling::letters;
use isa::{Address, Instruction};
use names::spelling::opcode_name;
use texts::writing::{field, piece};

fn instruction(room: &mut [u8], at: usize, i: Instruction) -> usize
    requires { at + length (line_of (Entry.Instructs i)) ≤ length room.old }
    ensures { Wrote room.old at (line_of (Entry.Instructs i)) room.new result }
{
    let behind = letters(room, at, opcode_name(i.op));
    operands(room, behind, i.first, i.second)
}

fn entry(room: &mut [u8], at: usize, e: Entry) -> usize
    requires { (at + length (line_of e) ≤ length room.old) × Addressed e }
    ensures { Wrote room.old at (line_of e) room.new result }
{
    match e {
        Entry::Origin(a) => {
            let n = a.0;
            field(room, at, b"ORG ", n as u32)
        }
        Entry::Instructs(i) => instruction(room, at, i),
        Entry::Holds(x) => field(room, at, b"DATA ", x as u32),
        Entry::Reserves(n) => field(room, at, b"RES ", n as u32),
        Entry::Finish => piece(room, at, b"END"),
    }
}

// A line with its LF.
pub(crate) fn line(room: &mut [u8], at: usize, e: Entry) -> usize
    requires { (at + length (line_of e ++ (LF ∷ [])) ≤ length room.old) × Addressed e }
    ensures { Wrote room.old at (line_of e ++ (LF ∷ [])) room.new result }
{
    let end = entry(room, at, e);
    room[end] = b'\n';
    end + 1
}

// The line that begins at an address, with an ORG before it where it does not follow on.
pub(crate) fn line_from(room: &mut [u8], at: usize, behind: usize, from: usize, e: Entry) -> usize
    requires { (at + length (line_text behind from e) ≤ length room.old) × (from < most_cells) × Addressed e }
    ensures { Wrote room.old at (line_text behind from e) room.new result }
{
    if from == behind {
        return line(room, at, e);
    }
    let next = line(room, at, Entry::Origin(Address(from)));
    line(room, next, e)
}

// How long that is: at most 6 letters, a space, two operands of at most 12 bytes and a comma, and before it ORG with 5 digits.
pub(crate) fn line_length(behind: usize, from: usize, e: Entry) -> usize
    requires { (from < most_cells) × Addressed e }
    ensures { (result ≡ length (line_text behind from e)) × (result ≤ longest_lines) }
{
    let mut room = [0u8; 64];
    line_from(&mut room, 0, behind, from, e)
}
