// What an operand's word is (specs/Checks.antt), and the operand with it.
ghost use Rattle.std.specs.Prelude.{◌≡◌};
ghost use Rattle.operands.specs.Checks.{operand_with, word_of, label_of, label_in};
ghost use Rattle.operands.specs.Inner.Peeks.{numeral_of};

use super::Written;
use isa::Operand;
use numerals::Numeral;
use numerals::reading::kept;
use values::ranges::displacement;
use values::{Name, Value};

pub(crate) fn operand_with(o: Written, word: u16) -> Operand
    ensures { result ≡ operand_with o word }
{
    match o {
        Written::Absent => Operand::Absent,
        Written::Immediate(_) => Operand::Immediate(word),
        Written::Register(_) => Operand::Register(word),
        Written::Memory(_) => Operand::Memory(word),
        Written::Indirect(_) => Operand::Indirect(word),
        Written::IndexedX(_) => Operand::IndexedX(word),
        Written::IndexedY(_) => Operand::IndexedY(word),
        Written::IndexedSp(_) => Operand::IndexedSp(word),
        Written::Relative(_) => Operand::Relative(word),
    }
}

fn numeral_of(v: Value) -> Option<Numeral>
    ensures { result ≡ numeral_of v }
{
    match v {
        Value::Number(n) => Some(n),
        Value::Label(_) => None,
    }
}

// The cell of a number, in its range; 0 in a label's place.
#[tactic(auto, unfolding(crate::specs::Checks::word_of))]
pub(crate) fn word_of(o: Written) -> Option<u16>
    ensures { result ≡ word_of o }
{
    match o {
        Written::Absent => Some(0),
        Written::Register(r) | Written::Indirect(r) => Some(r),
        Written::Immediate(v) | Written::Memory(v) => numeral_of(v).map_or(Some(0), kept),
        Written::IndexedX(v)
        | Written::IndexedY(v)
        | Written::IndexedSp(v)
        | Written::Relative(v) => numeral_of(v).map_or(Some(0), displacement),
    }
}

fn label_of(v: Value) -> Option<Name>
    ensures { result ≡ label_of v }
{
    match v {
        Value::Number(_) => None,
        Value::Label(name) => Some(name),
    }
}

#[tactic(auto, unfolding(crate::specs::Checks::label_in))]
pub(crate) fn label_in(o: Written) -> Option<Name>
    ensures { result ≡ label_in o }
{
    match o {
        Written::Absent | Written::Register(_) | Written::Indirect(_) => None,
        Written::Immediate(v) | Written::Memory(v) => label_of(v),
        Written::IndexedX(v)
        | Written::IndexedY(v)
        | Written::IndexedSp(v)
        | Written::Relative(v) => label_of(v),
    }
}
