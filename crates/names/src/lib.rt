// The words of statements and the names of registers (document 01: "Labels keep case; other words don't"). The meaning is in
// specs/Names.antt.
#![tactic(auto)]

use isa::Opcode;

pub mod lookup; // a word of the line among the names
pub mod spelling; // a name, to be written

// What a statement's word is.
#[derive(Clone, Copy)]
pub enum Word {
    Instructs(Opcode),
    Org,
    Equ,
    Res,
    Data,
    End,
    Unknown,
}
