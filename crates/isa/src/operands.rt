// Modes and words of operands, and what an opcode allows (specs/Operands.antt).
ghost use Rattle.std.specs.Prelude.{◌≡◌, ◌&&◌, [], ◌∷◌, leb};
ghost use Rattle.isa.specs.Operands.{mode_of, register_there, modes_of, one_of, is_target, seventh_fits, allows, operand_of};
ghost use Rattle.isa.specs.Inner.Words.{word_of};

use super::{Kinds, Operand};
use codes::registers::REGISTER_COUNT;

pub(crate) fn mode(o: Operand) -> u16
    ensures { result ≡ mode_of o }
{
    match o {
        Operand::Absent => 0,
        Operand::Immediate(_) => 1,
        Operand::Register(_) => 2,
        Operand::Memory(_) => 3,
        Operand::Indirect(_) => 4,
        Operand::IndexedX(_) => 5,
        Operand::IndexedY(_) => 6,
        Operand::IndexedSp(_) => 7,
        Operand::Relative(_) => 7,
    }
}

// The operand's word; 0 where there is none.
pub(crate) fn word(o: Operand) -> u16
    ensures { result ≡ word_of o }
{
    match o {
        Operand::Absent => 0,
        Operand::Immediate(v) => v,
        Operand::Register(r) => r,
        Operand::Memory(a) => a,
        Operand::Indirect(r) => r,
        Operand::IndexedX(d) => d,
        Operand::IndexedY(d) => d,
        Operand::IndexedSp(d) => d,
        Operand::Relative(d) => d,
    }
}

pub(crate) fn register_there(o: Operand) -> bool
    ensures { result ≡ register_there o }
{
    match o {
        Operand::Register(r) | Operand::Indirect(r) => r < REGISTER_COUNT,
        _ => true,
    }
}

// Whether a mode is in an opcode's list.
pub(crate) fn permits(k: Kinds, mode: u16) -> bool
    ensures { result ≡ one_of (modes_of k) mode }
{
    match k {
        Kinds::Nothing => mode == 0,
        Kinds::Source => 1 <= mode && mode <= 7,
        Kinds::Destination => 2 <= mode && mode <= 7,
        Kinds::Place => 3 <= mode && mode <= 7,
        Kinds::Target => matches!(mode, 3 | 4 | 7),
    }
}

// Whether an operand is of a kind that is allowed: `$v` for branches and CALL alone, `#v[.SP]` for the others.
#[tactic(auto, unfolding(crate::specs::Operands::allows))]
pub fn allowed_kind(k: Kinds, o: Operand) -> bool
    ensures { result ≡ allows k o }
{
    permits(k, mode(o)) && seventh_fits(k, o)
}

pub fn is_target(k: Kinds) -> bool
    ensures { result ≡ is_target k }
{
    matches!(k, Kinds::Target)
}

fn seventh_fits(k: Kinds, o: Operand) -> bool
    ensures { result ≡ seventh_fits k o }
{
    match o {
        Operand::IndexedSp(_) => !is_target(k),
        Operand::Relative(_) => is_target(k),
        _ => true,
    }
}

// The operand of a mode and its word; what is no mode counts as mode 7.
#[tactic(auto, unfolding(crate::specs::Operands::operand_of))]
pub(crate) fn operand(k: Kinds, mode: u16, word: u16) -> Operand
    ensures { result ≡ operand_of k mode word }
{
    match mode {
        0 => Operand::Absent,
        1 => Operand::Immediate(word),
        2 => Operand::Register(word),
        3 => Operand::Memory(word),
        4 => Operand::Indirect(word),
        5 => Operand::IndexedX(word),
        6 => Operand::IndexedY(word),
        _ => {
            if is_target(k) {
                Operand::Relative(word)
            } else {
                Operand::IndexedSp(word)
            }
        }
    }
}
