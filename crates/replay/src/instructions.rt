// Cases of encoding and decoding.
use super::fields::Fields;
use super::stops::Stop;
use isa::decoding::decode;
use isa::encoding::encode;
use isa::opcodes::{opcode, row};
use isa::{Address, Decoded, Encoded, Instruction, Operand};
use std::alloc::Global;
use std::fmt;
use std::io::Write;

// The kinds of operands, in the order of the format's numbers.
#[derive(Clone, Copy)]
enum Kind {
    Absent,
    Immediate,
    Register,
    Memory,
    Indirect,
    IndexedX,
    IndexedY,
    Relative,
    IndexedSp,
}

impl TryFrom<u8> for Kind {
    type Error = Stop;

    fn try_from(number: u8) -> Result<Kind, Stop> {
        match number {
            0 => Ok(Kind::Absent),
            1 => Ok(Kind::Immediate),
            2 => Ok(Kind::Register),
            3 => Ok(Kind::Memory),
            4 => Ok(Kind::Indirect),
            5 => Ok(Kind::IndexedX),
            6 => Ok(Kind::IndexedY),
            7 => Ok(Kind::Relative),
            8 => Ok(Kind::IndexedSp),
            _ => Err(Stop::Malformed),
        }
    }
}

// An operand as the format spells it: its kind, and its word.
#[derive(Clone, Copy)]
struct Spelt {
    kind: Kind,
    word: u16,
}

impl From<Operand> for Spelt {
    fn from(operand: Operand) -> Spelt {
        let (kind, word) = match operand {
            Operand::Absent => (Kind::Absent, 0),
            Operand::Immediate(w) => (Kind::Immediate, w),
            Operand::Register(w) => (Kind::Register, w),
            Operand::Memory(w) => (Kind::Memory, w),
            Operand::Indirect(w) => (Kind::Indirect, w),
            Operand::IndexedX(w) => (Kind::IndexedX, w),
            Operand::IndexedY(w) => (Kind::IndexedY, w),
            Operand::Relative(w) => (Kind::Relative, w),
            Operand::IndexedSp(w) => (Kind::IndexedSp, w),
        };
        Spelt { kind, word }
    }
}

impl Spelt {
    fn operand(self) -> Operand {
        match self.kind {
            Kind::Absent => Operand::Absent,
            Kind::Immediate => Operand::Immediate(self.word),
            Kind::Register => Operand::Register(self.word),
            Kind::Memory => Operand::Memory(self.word),
            Kind::Indirect => Operand::Indirect(self.word),
            Kind::IndexedX => Operand::IndexedX(self.word),
            Kind::IndexedY => Operand::IndexedY(self.word),
            Kind::Relative => Operand::Relative(self.word),
            Kind::IndexedSp => Operand::IndexedSp(self.word),
        }
    }
}

impl fmt::Display for Spelt {
    fn fmt<W: fmt::Write>(&self, f: &mut fmt::Formatter<W>) -> fmt::Result {
        let kind = self.kind as u8;
        let word = self.word;
        write!(f, "{kind} {word}")
    }
}

// `K V`.
fn operand(fields: &mut Fields<'_>) -> Result<Operand, Stop> {
    let kind = Kind::try_from(fields.byte()?)?;
    let word = fields.word()?;
    Ok(Spelt { kind, word }.operand())
}

// `OP K1 V1 K2 V2`.
pub(crate) fn encode_case(mut fields: Fields<'_>, out: &mut impl Write) -> Result<(), Stop> {
    let number = fields.byte()?;
    let first = operand(&mut fields)?;
    let second = operand(&mut fields)?;
    fields.end()?;
    match opcode(u16::from(number)).and_then(|op| encode(Instruction { op, first, second })) {
        Some(Encoded::One(a)) => write!(out, "0 1 {a}")?,
        Some(Encoded::Two(a, b)) => write!(out, "0 2 {a} {b}")?,
        Some(Encoded::Three(a, b, c)) => write!(out, "0 3 {a} {b} {c}")?,
        None => write!(out, "5")?,
    }
    Ok(())
}

// `N W1 .. WN`.
pub(crate) fn decode_case(
    alloc: Global,
    mut fields: Fields<'_>,
    out: &mut impl Write,
) -> Result<(), Stop> {
    let mut words = Vec::new(alloc);
    for _ in 0..fields.at_most(5)? {
        words.push(fields.word()?)?;
    }
    fields.end()?;
    match decode(&words, Address(0)) {
        Ok(Decoded { instruction, next }) => {
            let number = row(instruction.op).number;
            let first = Spelt::from(instruction.first);
            let second = Spelt::from(instruction.second);
            let length = next.0;
            write!(out, "0 {number} {first} {second} {length}")?;
        }
        Err(why) => {
            let stop = u8::from(why);
            write!(out, "{stop}")?;
        }
    }
    Ok(())
}
