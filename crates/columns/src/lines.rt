// The line of a number, found in its source once more (specs/Columns.antt, `line_numbered`), and where its refusal points.
ghost use Rattle.std.specs.Prelude.{◌≡◌};
ghost use Rattle.columns.specs.Columns.{next_start, line_start, line_numbered, pointed, name_column};

use super::naming::name_column;
use super::pointing::pointed;
use super::{Column, Pointed};
use tokens::lines::line_end;

// Where the line behind that at a place starts: behind its LF, or at the source's end.
#[tactic(auto, unfolding(crate::specs::Columns::next_start))]
fn next_start(source: &[u8], from: usize) -> usize
    ensures { result ≡ next_start source.now from }
{
    let end = line_end(source, from);
    if end < source.len() {
        end + 1
    } else {
        source.len()
    }
}

// Where the line of a number starts; behind the last line, the source's end.
#[tactic(auto, using(crate::proofs::LineStarts::start_more, crate::proofs::LineStarts::start_there))]
pub fn line_start(source: &[u8], number: usize) -> usize
    ensures { result ≡ line_start source.now number }
{
    let mut from = 0;
    for _ in 1..number {
        from = next_start(source, from);
    }
    from
}

// The line of a number; behind the last line, one of no byte.
#[tactic(auto, using(crate::proofs::LineStarts::part_within, crate::proofs::LineStarts::part_there))]
fn line_numbered(source: &[u8], number: usize) -> &[u8]
    ensures { result.now ≡ line_numbered source.now number }
{
    let from = line_start(source, number);
    &source[from..line_end(source, from)]
}

// What a line of a source points at that is refused with a number.
pub fn pointed_in(source: &[u8], line: usize, number: u8) -> Pointed
    ensures { result ≡ pointed (line_numbered source.now line) number }
{
    pointed(line_numbered(source, line), number)
}

// The same of a line that passes, whose first or second name in operands is refused.
pub fn name_in(source: &[u8], line: usize, number: u8, second: bool) -> Column
    ensures { result.0 ≡ name_column (line_numbered source.now line) number second }
{
    name_column(line_numbered(source, line), number, second)
}
