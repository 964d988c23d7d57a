// The ENS2025 machine: one step, and a run (document 01, "What a step does"). The meaning is in specs/Steps.antt and
// specs/Runs.antt; what each opcode does is in the crate `effects`.
#![tactic(auto)]

mod lent; // the step that is lent the register array
mod loans; // what a good loan is
pub mod run;
pub mod step;

// The machine's record: 16 registers by the paper's codes, the stop code, and how many bytes were taken of the input and
// written to the output. What a later request adds to the record (a dialect, the stack's direction, a guard) goes here.
#[repr(C)] // its layout is C's: a host lends it (include/ens2025.h)
#[derive(Clone, Copy, Debug, PartialEq, Eq)]
pub struct Registers {
    pub r: [u16; 16],
    pub stop: u8,
    pub taken: usize,
    pub written: usize,
}

// A step's reply: the record after it, and the stop.
#[derive(Clone, Copy, Debug, PartialEq, Eq)]
pub struct Stepped {
    pub registers: Registers,
    pub stop: u8,
}

// A run's reply: the record after it, the stop, and how many steps completed.
#[derive(Clone, Copy, Debug, PartialEq, Eq)]
pub struct Ran {
    pub registers: Registers,
    pub stop: u8,
    pub count: u32,
}

// What the inner step answers beside what it leaves in the registers, memory and output that it is lent.
#[derive(Clone, Copy, Debug, PartialEq, Eq)]
pub struct Inner {
    pub stop: u8,
    pub completed: bool,
    pub taken: usize,
    pub written: usize,
}
