// The table of the 39 opcodes (specs/Opcodes.antt), as two matches: opcode to row, number to opcode.
ghost use Rattle.std.specs.Prelude.{◌≡◌};
ghost use Rattle.isa.specs.Opcodes.{row_of, found_of, count_of, present_in};

use super::{Kinds, Opcode, Row};

fn made(number: u16, first: Kinds, second: Kinds) -> Row
    ensures { result ≡ record { number = number; first = first; second = second } }
{
    Row {
        number,
        first,
        second,
    }
}

// An opcode's number and what its operands may be.
#[tactic(auto, unfolding(crate::specs::Opcodes::table))]
pub fn row(op: Opcode) -> Row
    ensures { result ≡ row_of op }
{
    let nothing = Kinds::Nothing;
    let source = Kinds::Source;
    let destination = Kinds::Destination;
    let place = Kinds::Place;
    let target = Kinds::Target;
    match op {
        Opcode::NOP => made(0, nothing, nothing),
        Opcode::HALT => made(1, nothing, nothing),
        Opcode::MOVE => made(2, source, destination),
        Opcode::PUSH => made(3, source, nothing),
        Opcode::POP => made(4, destination, nothing),
        Opcode::ADD => made(5, source, source),
        Opcode::SUB => made(6, source, source),
        Opcode::MUL => made(7, source, source),
        Opcode::DIV => made(8, source, source),
        Opcode::MOD => made(9, source, source),
        Opcode::INC => made(10, destination, nothing),
        Opcode::DEC => made(11, destination, nothing),
        Opcode::NEG => made(12, destination, nothing),
        Opcode::CMP => made(13, source, source),
        Opcode::AND => made(14, source, source),
        Opcode::OR => made(15, source, source),
        Opcode::XOR => made(16, source, source),
        Opcode::NOT => made(17, destination, nothing),
        Opcode::BR => made(18, target, nothing),
        Opcode::BZ => made(19, target, nothing),
        Opcode::BNZ => made(20, target, nothing),
        Opcode::BP => made(21, target, nothing),
        Opcode::BNP => made(22, target, nothing),
        Opcode::BN => made(23, target, nothing),
        Opcode::BNN => made(24, target, nothing),
        Opcode::BV => made(25, target, nothing),
        Opcode::BNV => made(26, target, nothing),
        Opcode::BC => made(27, target, nothing),
        Opcode::BNC => made(28, target, nothing),
        Opcode::BE => made(29, target, nothing),
        Opcode::BO => made(30, target, nothing),
        Opcode::CALL => made(31, target, nothing),
        Opcode::RET => made(32, nothing, nothing),
        Opcode::INCHAR => made(33, destination, nothing),
        Opcode::ININT => made(34, destination, nothing),
        Opcode::INSTR => made(35, place, nothing),
        Opcode::WRCHAR => made(36, source, nothing),
        Opcode::WRINT => made(37, source, nothing),
        Opcode::WRSTR => made(38, place, nothing),
    }
}

// The opcode of a number.
#[tactic(auto, unfolding(crate::specs::Opcodes::found_of, crate::specs::Opcodes::opcode_of, crate::specs::Opcodes::opcodes))]
pub fn opcode(number: u16) -> Option<Opcode>
    ensures { result ≡ found_of number }
{
    match number {
        0 => Some(Opcode::NOP),
        1 => Some(Opcode::HALT),
        2 => Some(Opcode::MOVE),
        3 => Some(Opcode::PUSH),
        4 => Some(Opcode::POP),
        5 => Some(Opcode::ADD),
        6 => Some(Opcode::SUB),
        7 => Some(Opcode::MUL),
        8 => Some(Opcode::DIV),
        9 => Some(Opcode::MOD),
        10 => Some(Opcode::INC),
        11 => Some(Opcode::DEC),
        12 => Some(Opcode::NEG),
        13 => Some(Opcode::CMP),
        14 => Some(Opcode::AND),
        15 => Some(Opcode::OR),
        16 => Some(Opcode::XOR),
        17 => Some(Opcode::NOT),
        18 => Some(Opcode::BR),
        19 => Some(Opcode::BZ),
        20 => Some(Opcode::BNZ),
        21 => Some(Opcode::BP),
        22 => Some(Opcode::BNP),
        23 => Some(Opcode::BN),
        24 => Some(Opcode::BNN),
        25 => Some(Opcode::BV),
        26 => Some(Opcode::BNV),
        27 => Some(Opcode::BC),
        28 => Some(Opcode::BNC),
        29 => Some(Opcode::BE),
        30 => Some(Opcode::BO),
        31 => Some(Opcode::CALL),
        32 => Some(Opcode::RET),
        33 => Some(Opcode::INCHAR),
        34 => Some(Opcode::ININT),
        35 => Some(Opcode::INSTR),
        36 => Some(Opcode::WRCHAR),
        37 => Some(Opcode::WRINT),
        38 => Some(Opcode::WRSTR),
        _ => None,
    }
}

// How many operands an opcode has.
#[tactic(auto, unfolding(crate::specs::Opcodes::count_of))]
pub fn operand_count(op: Opcode) -> usize
    ensures { result ≡ count_of op }
{
    let its = row(op);
    present(its.first) + present(its.second)
}

fn present(k: Kinds) -> usize
    ensures { result ≡ present_in k }
{
    match k {
        Kinds::Nothing => 0,
        _ => 1,
    }
}
