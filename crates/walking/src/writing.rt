// A statement's cells, with 0 in the places of labels (sources/specs/Inner/Assembling.antt, `rawBy`).
ghost use Rattle.std.specs.Prelude.{true, ◌≡◌, ◌≤◌};
ghost use Rattle.std.proofs.lemmas.List.Edits.{sets};
ghost use Rattle.codes.specs.Limits.{most_cells};
ghost use Rattle.isa.specs.Encoding.{words_of, allowed};
ghost use Rattle.statements.specs.Reading.{line_read};
ghost use Rattle.sources.specs.Inner.Assembling.{raw_by};

use isa::encoding::encode;
use isa::{Encoded, Instruction};
use statements::Statement;
use statements::cells::write_cells;
use uses::cells::put;

fn write_words(i: Instruction, cells: &mut [u16], at: usize)
    requires { (allowed i ≡ true) × (at ≤ most_cells) }
    ensures { cells.new ≡ sets cells.old at (words_of i) }
{
    match encode(i) {
        None => {}
        Some(Encoded::One(x)) => put(cells, at, x),
        Some(Encoded::Two(x, y)) => {
            put(cells, at, x);
            put(cells, at + 1, y);
        }
        Some(Encoded::Three(x, y, z)) => {
            put(cells, at, x);
            put(cells, at + 1, y);
            put(cells, at + 2, z);
        }
    }
}

pub(crate) fn write_statement(line: &[u8], says: Statement, cells: &mut [u16], at: usize)
    requires { ((line_read line.now).statement ≡ Ok says) × (at ≤ most_cells) }
    ensures { cells.new ≡ sets cells.old at (raw_by line.now says) }
{
    match says {
        Statement::Instruction(op, a, b) => {
            let x = a.operand;
            let y = b.operand;
            write_words(
                Instruction {
                    op,
                    first: x,
                    second: y,
                },
                cells,
                at,
            );
        }
        Statement::Data(_) => write_cells(line, cells, at),
        _ => {}
    }
}
