// An operand, written into a room that has place for it (specs/Lines.antt). Each function answers the place after what it wrote.
ghost use Rattle.std.specs.Prelude.{◌≡◌, ◌+◌, ◌≤◌, length};
ghost use Rattle.texts.specs.Inner.Wrote.{Wrote};
ghost use Rattle.listing.specs.Pieces.{text_of};
ghost use Rattle.listing.specs.Lines.{in_brackets, register_pieces, indexed_pieces, operand_pieces, present, field_pieces};

use super::spelling::letters;
use codes::registers::{IX, IY, SP};
use isa::Operand;
use names::spelling::register_name;
use texts::writing::{field, piece, signed_field};

// `[.reg]`
fn in_brackets(room: &mut [u8], at: usize, r: u16) -> usize
    requires { at + length (text_of (in_brackets r)) ≤ length room.old }
    ensures { Wrote room.old at (text_of (in_brackets r)) room.new result }
{
    let name = piece(room, at, b"[.");
    let close = letters(room, name, register_name(r));
    piece(room, close, b"]")
}

// `#v[.IX]`, and the same by IY and SP.
fn indexed(room: &mut [u8], at: usize, d: u16, r: u16) -> usize
    requires { at + length (text_of (indexed_pieces d r)) ≤ length room.old }
    ensures { Wrote room.old at (text_of (indexed_pieces d r)) room.new result }
{
    let bracket = signed_field(room, at, b"#", d);
    in_brackets(room, bracket, r)
}

// `.reg`
fn register(room: &mut [u8], at: usize, r: u16) -> usize
    requires { at + length (text_of (register_pieces r)) ≤ length room.old }
    ensures { Wrote room.old at (text_of (register_pieces r)) room.new result }
{
    let name = piece(room, at, b".");
    letters(room, name, register_name(r))
}

fn operand(room: &mut [u8], at: usize, o: Operand) -> usize
    requires { at + length (text_of (operand_pieces o)) ≤ length room.old }
    ensures { Wrote room.old at (text_of (operand_pieces o)) room.new result }
{
    match o {
        Operand::Absent => at,
        Operand::Immediate(v) => field(room, at, b"#", v as u32),
        Operand::Register(r) => register(room, at, r),
        Operand::Memory(a) => field(room, at, b"/", a as u32),
        Operand::Indirect(r) => in_brackets(room, at, r),
        Operand::IndexedX(d) => indexed(room, at, d, IX as u16),
        Operand::IndexedY(d) => indexed(room, at, d, IY as u16),
        Operand::IndexedSp(d) => indexed(room, at, d, SP as u16),
        Operand::Relative(d) => signed_field(room, at, b"$", d),
    }
}

fn is_present(o: Operand) -> bool
    ensures { result ≡ present o }
{
    !matches!(o, Operand::Absent)
}

// What stands behind an opcode: a space and its operands.
pub(crate) fn operands(room: &mut [u8], at: usize, a: Operand, b: Operand) -> usize
    requires { at + length (text_of (field_pieces a b)) ≤ length room.old }
    ensures { Wrote room.old at (text_of (field_pieces a b)) room.new result }
{
    if !is_present(a) {
        return at;
    }
    let first = piece(room, at, b" ");
    let comma = operand(room, first, a);
    if !is_present(b) {
        return comma;
    }
    let second = piece(room, comma, b",");
    operand(room, second, b)
}
