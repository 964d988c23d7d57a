// The cells that a line's DATA gives (specs/Cells.antt).
ghost use Rattle.std.specs.Prelude.{◌≡◌};
ghost use Rattle.std.proofs.lemmas.List.Edits.{sets};
ghost use Rattle.statements.specs.Cells.{is_data, body_cells, cells_in};
ghost use Rattle.statements.specs.Inner.Parts.{begun_by};

use super::labels::{is_word, label};
use names::Word;
use names::lookup::statement_word;
use tokens::Token;

fn is_data(w: Word) -> bool
    ensures { result ≡ is_data w }
{
    matches!(w, Word::Data)
}

// The statement that a token begins.
fn write_body(s: &[u8], w: Token, row: &mut [u16], at: usize)
    ensures { row.new ≡ sets row.old at (body_cells s.now (begun_by s.now w)) }
{
    if is_word(w.kind) && is_data(statement_word(s, w.start, w.next.at)) {
        items::writing::write_cells(s, w.next, row, at);
    }
}

// The cells that a line gives by DATA, into a lent row from a place on; what does not fit is left out, and a line that is refused
// or says something else writes nothing.
#[tactic(auto, unfolding(crate::specs::Cells::cells_in))]
pub fn write_cells(line: &[u8], row: &mut [u16], at: usize)
    ensures { row.new ≡ sets row.old at (cells_in line.now) }
{
    write_body(line, label(line).word, row, at);
}
