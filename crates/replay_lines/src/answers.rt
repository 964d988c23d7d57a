// A line's reply: the first of its own checks that fails, or 0; its label's place; and what it says, or where the failure points.
use columns::pointing::pointed;
use isa::Operand;
use isa::opcodes::row;
use operands::Given;
use statements::Statement;
use statements::cells::write_cells;
use statements::line::read_line;
use statements::refusals::number_of;
use std::fmt::InlineText;
use std::io::Write;
use std::{fmt, io};
use values::Name;

// Room for a reply: 64 cells behind a number and three places are 407 bytes at most.
const ROOM: usize = 512;

// Where a label stands in the line; 0 0 where there is none.
#[derive(Clone, Copy)]
struct Place(Option<Name>);

impl fmt::Display for Place {
    fn fmt<W: fmt::Write>(&self, f: &mut fmt::Formatter<W>) -> fmt::Result {
        match self.0 {
            Some(Name { start, end }) => write!(f, "{start} {end}"),
            None => write!(f, "0 0"),
        }
    }
}

// An operand's kind and word, by the format's numbers, and its label.
#[derive(Clone, Copy)]
struct Spelt(Given);

impl fmt::Display for Spelt {
    fn fmt<W: fmt::Write>(&self, f: &mut fmt::Formatter<W>) -> fmt::Result {
        let (kind, word) = match self.0.operand {
            Operand::Absent => (0, 0),
            Operand::Immediate(v) => (1, v),
            Operand::Register(r) => (2, r),
            Operand::Memory(a) => (3, a),
            Operand::Indirect(r) => (4, r),
            Operand::IndexedX(d) => (5, d),
            Operand::IndexedY(d) => (6, d),
            Operand::Relative(d) => (7, d),
            Operand::IndexedSp(d) => (8, d),
        };
        let label = Place(self.0.label);
        write!(f, "{kind} {word} {label}")
    }
}

// DATA: the number of its cells, and those that a row has room for.
fn data<W: fmt::Write>(f: &mut fmt::Formatter<W>, line: &[u8], n: usize) -> fmt::Result {
    let mut row = [0u16; 64];
    write_cells(line, &mut row, 0);
    write!(f, " D {n}")?;
    for cell in row.iter().take(n) {
        write!(f, " {cell}")?;
    }
    Ok(())
}

// What a line says.
fn saying<W: fmt::Write>(f: &mut fmt::Formatter<W>, line: &[u8], said: Statement) -> fmt::Result {
    match said {
        Statement::Nothing => write!(f, " N"),
        Statement::Instruction(op, first, second) => {
            let number = row(op).number;
            let first = Spelt(first);
            let second = Spelt(second);
            write!(f, " I {number} {first} {second}")
        }
        Statement::Org(v) => write!(f, " O {v}"),
        Statement::Equ(v) => write!(f, " Q {v}"),
        Statement::Res(v) => write!(f, " R {v}"),
        Statement::Data(n) => data(f, line, n),
        Statement::End => write!(f, " E"),
    }
}

// A line's reply. Where the line is refused, it is read once more for the column and the operand's place.
#[derive(Clone, Copy)]
struct Reply<'a>(&'a [u8]);

impl fmt::Display for Reply<'_> {
    fn fmt<W: fmt::Write>(&self, f: &mut fmt::Formatter<W>) -> fmt::Result {
        let line = self.0;
        let read = read_line(line);
        let label = Place(read.label);
        match read.statement {
            Ok(said) => {
                write!(f, "0 {label}")?;
                saying(f, line, said)?;
            }
            Err(failure) => {
                let refusal = number_of(failure);
                let at = pointed(line, refusal);
                let column = at.column.0;
                let place = at.place;
                write!(f, "{refusal} {label} {column} {place}")?;
            }
        }
        writeln!(f)
    }
}

// Answers a line by one write. The reply is held on the stack: nothing here runs out of memory.
pub(crate) fn answer(out: &mut impl Write, line: &[u8]) -> io::Result<()> {
    let reply = InlineText::<ROOM>::of(Reply(line));
    out.write_all(reply.as_str().as_bytes())
}
