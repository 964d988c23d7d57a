// Words to an instruction (specs/Decoding.antt).
ghost use Rattle.std.specs.Prelude.{◌≡◌, ◌<◌, length, get_or};
ghost use Rattle.isa.specs.Decoding.{first_word_read, size_in, read_unless, decode_word, decode_of};

use super::opcodes::{opcode, row};
use super::operands::{operand, permits, register_there};
use super::{Address, Decoded, Instruction, Opcode, Undecoded};

// What a first word alone decides: the one place that a table of 2,496 entries may replace.
#[tactic(auto, unfolding(crate::specs::Decoding::first_word_read, crate::specs::Decoding::modes_allowed, crate::specs::Opcodes::found_of))]
pub fn first_word(w: u16) -> Result<Opcode, Undecoded>
    ensures { result ≡ first_word_read w }
{
    let op = opcode(w / 64).ok_or(Undecoded::NoOpcode)?;
    let its = row(op);
    if !permits(its.first, w / 8 % 8) || !permits(its.second, w % 8) {
        return Err(Undecoded::NoMode);
    }
    Ok(op)
}

// How many words the instruction of a first word has.
#[tactic(auto, unfolding(crate::specs::Decoding::size_in))]
pub fn size_of(w: u16) -> usize
    ensures { result ≡ size_in w }
{
    if 0 < w / 8 % 8 {
        if 0 < w % 8 { 3 } else { 2 }
    } else {
        if 0 < w % 8 { 2 } else { 1 }
    }
}

// The word at a place, and 0 past the end.
pub fn word_at(m: &[u16], at: usize) -> u16
    ensures { result ≡ get_or m.now at 0 }
{
    m.get(at).copied().unwrap_or(0)
}

#[tactic(auto, unfolding(crate::specs::Decoding::read_unless))]
fn read_unless(i: Instruction, after: usize) -> Result<Decoded, Undecoded>
    ensures { result ≡ read_unless i after }
{
    if !register_there(i.first) || !register_there(i.second) {
        return Err(Undecoded::NoRegister);
    }
    Ok(Decoded {
        instruction: i,
        next: Address(after),
    })
}

// The operands of an opcode whose first word w stands at a place.
fn operands_at(m: &[u16], at: usize, w: u16, op: Opcode) -> Result<Decoded, Undecoded>
    requires { (at < length m.now) × (first_word_read w ≡ Ok op) }
    ensures { result ≡ decode_word m.now at w }
{
    let size = size_of(w);
    if m.len() - at < size {
        return Err(Undecoded::PastMemory);
    }
    let its = row(op);
    let first = operand(its.first, w / 8 % 8, word_at(m, at + 1));
    let second = operand(its.second, w % 8, word_at(m, at + 2));
    read_unless(Instruction { op, first, second }, at + size)
}

// The instruction that stands at an address of a list of words.
pub fn decode(m: &[u16], at: Address) -> Result<Decoded, Undecoded>
    ensures { result ≡ decode_of m.now at.0 }
{
    let from = at.0;
    if m.len() <= from {
        return Err(Undecoded::PastMemory);
    }
    let w = m[from];
    operands_at(m, from, w, first_word(w)?)
}
