// What an ENS2025 instruction will do, found as a value before anything is written, and the one function that writes it
// (document 01, "What a step does"). The meaning is in specs/Effects.antt, one line for each opcode.
#![tactic(auto)]

pub mod apply; // an effect written to registers and memory
mod conditions; // when a branch is taken
pub mod places; // where operands are, and what stands there
pub mod perform; // the effect of each opcode
pub mod shapes; // the effects that opcodes share

// Where an operand is: a number of its own, a register by its code, or a cell by its address. A code is an index, and of an index's
// width: a place of four bytes would be packed into one number, and shifted apart again, at every use.
#[derive(Clone, Copy, Debug, PartialEq, Eq)]
pub enum Place {
    Nowhere,
    Constant(u16),
    InRegister(usize),
    InCell(u16),
}

// An operand as it is found: where it is, what stands there, and the stop of one that is not there, a register by its code or a cell. No
// Result: both operands are found before either is judged, and their stop is asked of both faults.
#[derive(Clone, Copy, Debug, PartialEq, Eq)]
pub struct Located {
    pub place: Place,
    pub value: u16,
    pub fault: u8,
}

// The next PC, not reduced; SP; a value and the place it goes to; the flags Z, C, V, P, S, or none where they are unchanged.
#[derive(Clone, Copy, Debug, PartialEq, Eq)]
pub struct Effect {
    pub next: usize,
    pub sp: u16,
    pub to: Place,
    pub value: u16,
    pub flags: Option<usize>,
}

// What an input or output instruction asks for.
#[derive(Clone, Copy, Debug, PartialEq, Eq)]
pub enum Port {
    TakeByte(Place),
    TakeNumber(Place),
    TakeString(u16),
    PutByte(u16),
    PutNumber(u16),
    PutString(u16),
}

// What an instruction comes to.
#[derive(Clone, Copy, Debug, PartialEq, Eq)]
pub enum Performed {
    Does(Effect),
    Halts,
    Asks(Port),
    Stops(u8),
}
