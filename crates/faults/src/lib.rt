// Where in a line of wrong form the fault shows (document 02, K4). The meaning is in specs/Faults.antt; specs/Forms.antt and
// specs/Walk.antt are the walk that finds it.
#![tactic(auto)]

mod moves; // how a token moves a state on
mod states; // what a state says
mod stages; // how a byte moves a stage on
pub mod place; // the walk over a line's bytes

// What may be next in a line.
#[derive(Clone, Copy)]
pub enum State {
    Start, // a label, a statement's word or the end
    Body, // a statement's word or the end, behind a label
    Field, // an operand or the end, behind an opcode
    Operand, // an operand
    Value(bool), // a value; behind `#` or not
    Digits(bool), // the digits after a value's `-`
    AfterHash, // `[`, a comma or the end, after `#v`
    IndexDot, // `.` after `#v[`
    IndexName, // IX, IY or SP after `#v[.`
    RegisterName, // a register after `.`
    IndirectDot, // `.` after `[`
    IndirectName, // a register after `[.`
    Closing, // `]`
    Done, // a comma or the end, after an operand
    Expression(bool, usize), // an operand or not, where so many parentheses are open
    Item, // an item of DATA
    ItemDigits, // the digits after an item's `-`
    ItemDone, // a comma or the end, after an item
    Ended, // anything: the rest of END's line, or of a comment
    Dead, // nothing goes on
}

// Where among its bytes the walk is, and the state that what has begun there began in.
#[derive(Clone, Copy)]
pub enum Stage {
    Between(State),
    Word(State),
    Zero(State), // behind a number's first `0`
    Decimal(State), // in decimal digits
    Prefixed(State), // behind `0x`
    Hexadecimal(State), // in hexadecimal digits
    Quoted(State), // in a string
    Escaped(State), // behind a string's backslash
}

// Where the walk stands: its stage, and where the word there began.
#[derive(Clone, Copy)]
pub struct Walk {
    pub stage: Stage,
    pub began: usize,
}
