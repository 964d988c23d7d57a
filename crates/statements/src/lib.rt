// A line of a source (document 01, "Rules of writing"): its label and its statement, as one answer that touches no state. The meaning
// is in specs/: Statements.antt and Checks.antt.
#![tactic(auto)]

use isa::Opcode;
use operands::Given;
use tokens::Token;
use values::Name;

pub mod cells; // the cells that a line's DATA gives
pub mod labels; // a line's label, and the token after it
pub mod line; // a line's reading
pub mod refusals; // the check that a part of the line fails, and the paper's number of it
mod results; // what an expression comes to

// What a line's statement says: what it is, with its operands, its value, or the number of its cells.
#[derive(Clone, Copy)]
pub enum Statement {
    Nothing,
    Instruction(Opcode, Given, Given),
    Org(u16),
    Equ(u16),
    Res(u16),
    Data(usize),
    End,
}

// A check of a line that fails: refusal 4, 3, 15, 16, 8, 6 or 7. A wrong kind names the operand's place, 1 or 2; out of range is a number or
// an operation, or else the statement's result.
#[derive(Clone, Copy, Debug, PartialEq, Eq)]
pub enum Failure {
    UnknownWord,
    WrongForm,
    WrongCount,
    WrongKind(u8),
    TooDeep,
    OutOfRange,
    ByZero,
    ResultOut,
}

// A line's reading.
#[derive(Clone, Copy)]
pub struct LineRead {
    pub label: Option<Name>,
    pub statement: Result<Statement, Failure>,
}

// A line's label, and the statement's first token.
#[derive(Clone, Copy)]
pub struct Labelled {
    pub label: Option<Name>,
    pub word: Token,
}
