// The ENS2025 instruction set: the 39 opcodes, operands, and instructions as words and back (document 01, "Layout").
// The meaning is in specs/: Opcodes.antt has the table, Encoding.antt and Decoding.antt the words.
#![tactic(auto)]

ghost use Rattle.std.specs.Prelude.{◌≡◌};
ghost use Rattle.isa.specs.Decoding.{undecoded_stop};

use codes::stops::{MEMORY_END, NO_MODE, NO_OPCODE, NO_REGISTER};

pub mod decoding; // words to an instruction
pub mod encoding; // an instruction to its words
pub mod opcodes; // the table of the 39 opcodes
pub mod operands; // modes, words, and what an opcode allows

// The address of a cell of memory, and the counter of the next one: 0 to 65536. Never a line number.
#[derive(Clone, Copy, Debug, PartialEq, Eq)]
pub struct Address(pub usize);

// The opcodes, named as the paper names them, in the order of their numbers.
#[derive(Clone, Copy, Debug, PartialEq, Eq)]
pub enum Opcode {
    NOP,
    HALT,
    MOVE,
    PUSH,
    POP,
    ADD,
    SUB,
    MUL,
    DIV,
    MOD,
    INC,
    DEC,
    NEG,
    CMP,
    AND,
    OR,
    XOR,
    NOT,
    BR,
    BZ,
    BNZ,
    BP,
    BNP,
    BN,
    BNN,
    BV,
    BNV,
    BC,
    BNC,
    BE,
    BO,
    CALL,
    RET,
    INCHAR,
    ININT,
    INSTR,
    WRCHAR,
    WRINT,
    WRSTR,
}

// What an opcode lets an operand be.
#[derive(Clone, Copy, Debug, PartialEq, Eq)]
pub enum Kinds {
    Nothing,
    Source,
    Destination,
    Place,
    Target,
}

// An operand, with its word: value, address, displacement or register code.
#[derive(Clone, Copy, Debug, PartialEq, Eq)]
pub enum Operand {
    Absent,
    Immediate(u16),
    Register(u16),
    Memory(u16),
    Indirect(u16),
    IndexedX(u16),
    IndexedY(u16),
    IndexedSp(u16),
    Relative(u16),
}

// An opcode with its operands.
#[derive(Clone, Copy, Debug, PartialEq, Eq)]
pub struct Instruction {
    pub op: Opcode,
    pub first: Operand,
    pub second: Operand,
}

// An opcode's row of the table.
#[derive(Clone, Copy, Debug, PartialEq, Eq)]
pub struct Row {
    pub number: u16,
    pub first: Kinds,
    pub second: Kinds,
}

// The encoder's words.
#[derive(Clone, Copy, Debug, PartialEq, Eq)]
pub enum Encoded {
    One(u16),
    Two(u16, u16),
    Three(u16, u16, u16),
}

// An instruction that was decoded, with the address after it.
#[derive(Clone, Copy, Debug, PartialEq, Eq)]
pub struct Decoded {
    pub instruction: Instruction,
    pub next: Address,
}

// Why words are no instruction: stop 2, 3, 4 or 5.
#[derive(Clone, Copy, Debug, PartialEq, Eq)]
pub enum Undecoded {
    NoOpcode,
    NoMode,
    NoRegister,
    PastMemory,
}

impl From<Undecoded> for u8 {
    ghost from_gives = { λ why k. k ≡ undecoded_stop why };

    // The stop's number.
    fn from(why: Undecoded) -> u8 {
        match why {
            Undecoded::NoOpcode => NO_OPCODE,
            Undecoded::NoMode => NO_MODE,
            Undecoded::NoRegister => NO_REGISTER,
            Undecoded::PastMemory => MEMORY_END,
        }
    }
}
