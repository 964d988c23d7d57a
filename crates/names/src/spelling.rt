// The names as they are written, by their numbers (specs/Inner/Packing.antt): the same tables, asked the other way.
ghost use Rattle.std.specs.Prelude.{◌≡◌, get_or};
ghost use Rattle.numerals.specs.Bytes.{bytes};
ghost use Rattle.isa.specs.Opcodes.{table};
ghost use Rattle.names.specs.Names.{registers};
ghost use Rattle.names.specs.Inner.Packing.{pack};

use super::lookup::{REGISTERS, STATEMENT_WORDS};
use isa::Opcode;
use isa::opcodes::row;

// The number of an opcode's name.
pub fn opcode_name(op: Opcode) -> u64
    ensures { result ≡ pack (bytes (table op).name) }
{
    STATEMENT_WORDS[row(op).number as usize]
}

// The number of a register's name; 0, which no name has, where the code is none.
pub fn register_name(r: u16) -> u64
    ensures { result ≡ pack (bytes (get_or registers r "")) }
{
    REGISTERS.get(r as usize).copied().unwrap_or(0)
}
