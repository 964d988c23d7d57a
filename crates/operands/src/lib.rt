// An opcode's operands (document 01, "Rules of writing"): their form, their number and kinds, and the ranges of their numbers. The
// meaning is in specs/: Operands.antt, Checks.antt, Settling.antt and Places.antt.
#![tactic(auto)]

use isa::Operand;
use numerals::Cursor;
use values::{Name, Value};

pub mod instruction; // the operands that follow an opcode
mod listed; // what is kept of a list of operands
pub mod places; // where an operand and its number stand
mod shapes; // one operand
mod words; // what an operand's word is

// An operand as it is written, each of one kind.
#[derive(Clone, Copy)]
pub enum Written {
    Absent,
    Immediate(Value),
    Register(u16),
    Memory(Value),
    Indirect(u16),
    IndexedX(Value),
    IndexedY(Value),
    IndexedSp(Value),
    Relative(Value),
}

// An operand with its word, and the label that it names, by its place, if it does. What a label stands for takes the place of a word 0 when labels are settled.
#[derive(Clone, Copy)]
pub struct Given {
    pub operand: Operand,
    pub label: Option<Name>,
}

// An opcode's two operands.
#[derive(Clone, Copy)]
pub struct Operands {
    pub first: Given,
    pub second: Given,
}

// Why the tokens after an opcode are not its operands: refusal 3, 15, 16 or 6. A wrong kind names the operand's place, 1 or 2.
#[derive(Clone, Copy, Debug, PartialEq, Eq)]
pub enum OperandsFault {
    WrongForm,
    WrongCount,
    WrongKind(u8),
    OutOfRange,
}

// The first two of a list of operands, and how many they are, up to 3: no opcode has three.
#[derive(Clone, Copy)]
struct FirstTwo {
    count: usize,
    first: Written,
    second: Written,
}
