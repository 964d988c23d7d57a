// The operands that follow an opcode (specs/Checks.antt): form, number, kinds, ranges.
ghost use Rattle.std.specs.Prelude.{◌≡◌};
ghost use Rattle.tokens.specs.Reading.{tokens_from};
ghost use Rattle.operands.specs.Checks.{word_of, given, ranged, instruction_read};
ghost use Rattle.operands.specs.Inner.Peeks.{judged_listed};

use super::listed::operands;
use super::words::{label_in, operand_with, word_of};
use super::{FirstTwo, Given, Operands, OperandsFault, Written};
use isa::Opcode;
use isa::opcodes::{operand_count, row};
use isa::operands::allowed_kind;
use numerals::Cursor;

fn given_with(o: Written, word: u16) -> Given
    ensures { result ≡ given o word }
{
    Given {
        operand: operand_with(o, word),
        label: label_in(o),
    }
}

// Operands that fit, each number in its range.
fn in_range(a: Written, b: Written) -> Result<Operands, OperandsFault>
    ensures { result ≡ ranged a (word_of a) b (word_of b) }
{
    let x = word_of(a).ok_or(OperandsFault::OutOfRange)?;
    let y = word_of(b).ok_or(OperandsFault::OutOfRange)?;
    Ok(Operands {
        first: given_with(a, x),
        second: given_with(b, y),
    })
}

// Number (15) before kinds (16), the first operand's before the second's, and kinds before ranges (6).
fn judge(op: Opcode, all: FirstTwo) -> Result<Operands, OperandsFault>
    ensures { result ≡ judged_listed op all }
{
    if all.count != operand_count(op) {
        return Err(OperandsFault::WrongCount);
    }
    let its = row(op);
    if !allowed_kind(its.first, operand_with(all.first, 0)) {
        return Err(OperandsFault::WrongKind(1));
    }
    if !allowed_kind(its.second, operand_with(all.second, 0)) {
        return Err(OperandsFault::WrongKind(2));
    }
    in_range(all.first, all.second)
}

pub fn instruction(s: &[u8], op: Opcode, from: Cursor) -> Result<Operands, OperandsFault>
    ensures { result ≡ instruction_read s.now op (tokens_from s.now from.at) }
{
    judge(op, operands(s, from).ok_or(OperandsFault::WrongForm)?)
}
