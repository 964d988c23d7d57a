// An instruction to its words (specs/Encoding.antt).
ghost use Rattle.std.specs.Prelude.{◌≡◌, ◌∷◌, ◌++◌};
ghost use Rattle.isa.specs.Operands.{operand_words};
ghost use Rattle.isa.specs.Encoding.{allowed, encode_of, answered};
ghost use Rattle.isa.specs.Inner.Words.{handed_back};

use super::opcodes::row;
use super::operands::{allowed_kind, mode, register_there, word};
use super::{Encoded, Instruction, Operand};

#[tactic(auto, unfolding(crate::specs::Encoding::allowed))]
fn is_allowed(i: Instruction) -> bool
    ensures { result ≡ allowed i }
{
    let its = row(i.op);
    allowed_kind(its.first, i.first)
        && allowed_kind(its.second, i.second)
        && register_there(i.first)
        && register_there(i.second)
}

// The first word, and then the words of the operands that are there.
fn laid_out(first: u16, a: Operand, b: Operand) -> Encoded
    ensures { Some result ≡ handed_back (first ∷ operand_words a ++ operand_words b) }
{
    match (mode(a), mode(b)) {
        (0, 0) => Encoded::One(first),
        (0, _) => Encoded::Two(first, word(b)),
        (_, 0) => Encoded::Two(first, word(a)),
        _ => Encoded::Three(first, word(a), word(b)),
    }
}

// The words of an allowed instruction; any other is refused with 5.
#[tactic(auto, using(crate::proofs::Words::small_parts), unfolding(crate::specs::Encoding::encode_of))]
pub fn encode(i: Instruction) -> Option<Encoded>
    ensures { answered result ≡ encode_of i }
{
    if !is_allowed(i) {
        return None;
    }
    let its = row(i.op);
    let (a, b) = (i.first, i.second);
    Some(laid_out(its.number * 64 + mode(a) * 8 + mode(b), a, b))
}
