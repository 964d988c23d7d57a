// The effect of each opcode (specs/Effects.antt).
ghost use Rattle.std.specs.Prelude.{◌≡◌, length, cond};
ghost use Rattle.isa.specs.Opcodes.{table};
ghost use Rattle.isa.specs.Operands.{is_target};
ghost use Rattle.codes.specs.Stops.{none, memory_end};
ghost use Rattle.effects.specs.Effects.{found, by_opcode};
ghost use Rattle.effects.specs.Inner.Located.{stop_of_faults, performs_on};

use super::conditions::{carry, minus, not_negative, not_positive, odd, overflow, zero};
use super::places::target;
use super::shapes::{compared, divided, goes_on, jumped, moved, popped, pushed, resulted};
use super::{Located, Performed, Place, Port};
use codes::registers::{A, PC, SP, SR};
use codes::stops::{MEMORY_END, NO_REGISTER, NONE};
use isa::{Kinds, Opcode};

// One line for each opcode. `p` and `q` are the operands' places, `x` and `y` what stands there.
#[tactic(auto, unfolding(crate::specs::Effects::by_opcode))]
fn by_opcode(
    m: &[u16],
    next: usize,
    sp: u16,
    sr: u16,
    p: Place,
    q: Place,
    x: u16,
    y: u16,
    op: Opcode,
) -> Performed
    ensures { result ≡ by_opcode (found m.now next sp sr p q x y) op }
{
    let to_a = Place::InRegister(A);
    match op {
        Opcode::NOP => goes_on(next, sp),
        Opcode::HALT => Performed::Halts,
        Opcode::MOVE => moved(next, sp, q, x),
        Opcode::PUSH => pushed(m, sp, x, next),
        Opcode::POP => popped(m, sp, next, p),
        Opcode::ADD => resulted(next, sp, to_a, arithmetic::add(x, y)),
        Opcode::SUB => resulted(next, sp, to_a, arithmetic::sub(x, y)),
        Opcode::MUL => resulted(next, sp, to_a, arithmetic::mul(x, y)),
        Opcode::DIV => divided(next, sp, arithmetic::div(x, y)),
        Opcode::MOD => divided(next, sp, arithmetic::modulo(x, y)),
        Opcode::INC => resulted(next, sp, p, arithmetic::inc(x)),
        Opcode::DEC => resulted(next, sp, p, arithmetic::dec(x)),
        Opcode::NEG => resulted(next, sp, p, arithmetic::neg(x)),
        Opcode::CMP => compared(next, sp, arithmetic::cmp(x, y)),
        Opcode::AND => moved(next, sp, to_a, arithmetic::and(x, y)),
        Opcode::OR => moved(next, sp, to_a, arithmetic::or(x, y)),
        Opcode::XOR => moved(next, sp, to_a, arithmetic::xor(x, y)),
        Opcode::NOT => moved(next, sp, p, arithmetic::not(x)),
        Opcode::BR => jumped(next, sp, p, true),
        Opcode::BZ => jumped(next, sp, p, zero(sr)),
        Opcode::BNZ => jumped(next, sp, p, !zero(sr)),
        Opcode::BP => jumped(next, sp, p, !minus(sr)),
        Opcode::BNP => jumped(next, sp, p, not_positive(sr)),
        Opcode::BN => jumped(next, sp, p, minus(sr)),
        Opcode::BNN => jumped(next, sp, p, not_negative(sr)),
        Opcode::BV => jumped(next, sp, p, overflow(sr)),
        Opcode::BNV => jumped(next, sp, p, !overflow(sr)),
        Opcode::BC => jumped(next, sp, p, carry(sr)),
        Opcode::BNC => jumped(next, sp, p, !carry(sr)),
        Opcode::BE => jumped(next, sp, p, !odd(sr)),
        Opcode::BO => jumped(next, sp, p, odd(sr)),
        Opcode::CALL => pushed(m, sp, (next % 65536) as u16, target(p) as usize),
        Opcode::RET => popped(m, sp, next, Place::InRegister(PC)),
        Opcode::INCHAR => Performed::Asks(Port::TakeByte(p)),
        Opcode::ININT => Performed::Asks(Port::TakeNumber(p)),
        Opcode::INSTR => Performed::Asks(Port::TakeString(target(p))),
        Opcode::WRCHAR => Performed::Asks(Port::PutByte(x)),
        Opcode::WRINT => Performed::Asks(Port::PutNumber(x)),
        Opcode::WRSTR => Performed::Asks(Port::PutString(target(p))),
    }
}

// Whether an opcode's operand is a target, which counts only as next PC.
pub fn has_target(op: Opcode) -> bool
    ensures { result ≡ is_target (table op).first }
{
    isa::operands::is_target(isa::opcodes::row(op).first)
}

// The stop of an operand that is outside memory: none where it is a target, which counts only as next PC.
fn outside(op: Opcode) -> u8
    ensures { result ≡ cond (is_target (table op).first) none memory_end }
{
    if has_target(op) { NONE } else { MEMORY_END }
}

// The stop of two operands, the first being there.
#[tactic(auto, unfolding(crate::specs::Inner::Located::stop_of_faults))]
fn of_second(op: Opcode, b: u8) -> u8
    ensures { result ≡ stop_of_faults op none b }
{
    if b == NONE {
        return NONE;
    }
    if b == NO_REGISTER {
        return NO_REGISTER;
    }
    outside(op)
}

// The stop of two operands: a register that is not there before a cell that is not. The opcode is asked only where one is not there.
#[tactic(auto, unfolding(crate::specs::Inner::Located::stop_of_faults))]
fn judged(op: Opcode, a: u8, b: u8) -> u8
    ensures { result ≡ stop_of_faults op a b }
{
    if a == NONE {
        return of_second(op, b);
    }
    if a == NO_REGISTER {
        return NO_REGISTER;
    }
    if b == NO_REGISTER {
        return NO_REGISTER;
    }
    outside(op)
}

// What an instruction comes to, its operands being found and its address after it being `next`. Nothing is written.
#[tactic(auto, unfolding(crate::specs::Inner::Located::performs_on))]
pub fn perform(
    r: &[u16; 16],
    m: &[u16],
    next: usize,
    op: Opcode,
    a: Located,
    b: Located,
) -> Performed
    ensures { result ≡ performs_on r.now m.now next op a b }
{
    let stop = judged(op, a.fault, b.fault);
    if stop != NONE {
        return Performed::Stops(stop);
    }
    by_opcode(
        m, next, r[SP], r[SR], a.place, b.place, a.value, b.value, op,
    )
}
