// The label that an operand names, or the operand, in a line that passes (specs/Columns.antt, `name_column`).
ghost use Rattle.std.specs.Prelude.{◌≡◌};
ghost use Rattle.columns.specs.Columns.{name_by, name_column_at, name_column_in, name_column};

use super::Column;
use super::own::{column_at, mark_before};
use statements::Statement;
use statements::line::read_line;
use values::Name;

// The first operand's label, or the second's.
fn name_by(a: Option<Name>, b: Option<Name>, second: bool) -> Option<Name>
    ensures { result ≡ name_by a b second }
{
    if second { b } else { a.or(b) }
}

// 13 points at the name, 14 at its operand's mark.
fn name_column_at(line: &[u8], number: u8, name: Option<Name>) -> Column
    ensures { result.0 ≡ name_column_at line.now number name }
{
    match name {
        Some(n) if number == 14 => column_at(line, mark_before(line, n.start)),
        Some(n) => column_at(line, n.start),
        None => Column(0),
    }
}

fn name_column_in(line: &[u8], number: u8, second: bool, says: Statement) -> Column
    ensures { result.0 ≡ name_column_in line.now number second says }
{
    match says {
        Statement::Instruction(_, a, b) => name_column_at(
            line,
            number,
            name_by(a.label, b.label, second),
        ),
        _ => Column(0),
    }
}

// The column of a line's first or second name in operands, which is refused with a number.
#[tactic(auto, unfolding(crate::specs::Columns::name_column))]
pub(crate) fn name_column(line: &[u8], number: u8, second: bool) -> Column
    ensures { result.0 ≡ name_column line.now number second }
{
    match read_line(line).statement {
        Ok(says) => name_column_in(line, number, second, says),
        Err(_) => Column(0),
    }
}
