// Memory and map listed as source (document 02, K1 and K2), in a lent room. The meaning is in specs/: Lines.antt has the lines and their text,
// Listing.antt the refusals and what the room holds after.
#![tactic(auto)]

pub mod giving; // the listing, or why there is none
mod lines; // a line, written
mod operands; // an operand, written
mod spelling; // the names of opcodes and registers, written
mod walking; // from address to address: measured first, then written

use isa::{Address, Instruction};

// Why no listing is given.
#[derive(Clone, Copy, Debug, PartialEq, Eq)]
pub enum NotListed {
    BadLoan,
    Undecoded(Address),
    TooLong,
}

// A line of a listing: ORG, an instruction, a number of DATA, RES, END.
#[derive(Clone, Copy)]
pub enum Entry {
    Origin(Address),
    Instructs(Instruction),
    Holds(u16),
    Reserves(u16),
    Finish,
}

// What begins at an address: nothing in a free cell, a line with the address behind it, or an instruction that fails.
// An enum: both walks tell the three apart, and Result<Option<..>, ..> names none of them.
#[derive(Clone, Copy)]
pub enum Begins {
    Nothing,
    Line(Entry, Address),
    Fails,
}
