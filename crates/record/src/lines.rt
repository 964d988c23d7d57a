// The record's lines, written into a room that has place for them (specs/Record.antt). No line has more than 20 bytes. Each function
// answers the place after what it wrote.
ghost use Rattle.std.specs.Prelude.{[], ◌∷◌, ◌++◌, ◌+◌, ◌*◌, ◌≤◌, length};
ghost use Rattle.numerals.specs.Writing.{decimal};
ghost use Rattle.texts.specs.Lines.{text_of};
ghost use Rattle.texts.specs.Inner.Wrote.{Wrote};
ghost use Rattle.record.specs.Record.{end_lines, position_lines, record_text};
ghost use Rattle.record.specs.Inner.Cells.{lines_from};

use codes::registers::{A, SR};
use texts::writing::field;

// A name with its `=`, a number, and LF.
fn line(room: &mut [u8], at: usize, name: &[u8], n: u32) -> usize
    requires { (at + 20 ≤ length room.old) × (length name.now ≤ 8) }
    ensures { Wrote room.old at (text_of ((name.now ++ decimal n) ∷ [])) room.new result × (result ≤ at + 20) }
{
    let end = field(room, at, name, n);
    room[end] = b'\n';
    end + 1
}

// A register's line.
fn cell(room: &mut [u8], at: usize, name: &[u8], x: u16) -> usize
    requires { (at + 20 ≤ length room.old) × (length name.now ≤ 8) }
    ensures { Wrote room.old at (text_of ((name.now ++ decimal x) ∷ [])) room.new result × (result ≤ at + 20) }
{
    line(room, at, name, x as u32)
}

// How the run ended, and the accumulator.
fn end(room: &mut [u8], stop: u8, steps: u32, a: u16) -> usize
    requires { 60 ≤ length room.old }
    ensures { Wrote room.old 0 (text_of (end_lines stop steps a)) room.new result × (result ≤ 60) }
{
    let second = line(room, 0, b"stop=", stop as u32);
    let third = line(room, second, b"steps=", steps);
    cell(room, third, b"A=", a)
}

// The lines of n registers, from a code on. Their names stand in one row, three bytes each. An index, of both rows.
fn cells(room: &mut [u8], at: usize, names: &[u8], r: [u16; 16], from: usize, n: usize) -> usize
    requires { (at + 20 * n ≤ length room.old) × (3 * n ≤ length names.now) × (from + n ≤ 16) }
    ensures { Wrote room.old at (text_of (lines_from names.now r from n)) room.new result
        × (result ≤ at + 20 * n) }
{
    let mut next = at;
    for k in 0..n {
        let name = 3 * k;
        let behind = name + 3;
        next = cell(room, next, &names[name..behind], r[from + k]);
    }
    next
}

// How many bytes were taken of the input, and written to the output.
fn positions(room: &mut [u8], at: usize, taken: u32, written: u32) -> usize
    requires { at + 40 ≤ length room.old }
    ensures { Wrote room.old at (text_of (position_lines taken written)) room.new result × (result ≤ at + 40) }
{
    let second = line(room, at, b"taken=", taken);
    line(room, second, b"written=", written)
}

// The whole record, of a run whose positions have 32 bits.
pub(crate) fn write(
    room: &mut [u8],
    stop: u8,
    steps: u32,
    r: [u16; 16],
    taken: u32,
    written: u32,
) -> usize
    requires { 400 ≤ length room.old }
    ensures { Wrote room.old 0 (record_text stop steps r taken written) room.new result × (result ≤ 400) }
{
    let first = end(room, stop, steps, r[A]);
    let special = cells(room, first, b"R0=R1=R2=R3=R4=R5=R6=R7=R8=R9=", r, 0, 10);
    let last = cells(room, special, b"SR=IX=IY=SP=PC=", r, SR, 5);
    positions(room, last, taken, written)
}
