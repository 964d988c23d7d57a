// A line's reading (specs/Reading.antt).
ghost use Rattle.std.specs.Prelude.{◌≡◌};
ghost use Rattle.tokens.specs.Reading.{tokens_from};
ghost use Rattle.statements.specs.Reading.{by_word, statement_read, line_read};
ghost use Rattle.statements.specs.Inner.Parts.{begun_by};

use super::labels::label;
use super::results::outcome;
use super::{Failure, LineRead, Statement};
use items::reading::items;
use names::Word;
use names::lookup::statement_word;
use numerals::Cursor;
use operands::Operands;
use operands::instruction::instruction;
use tokens::{Kind, Token};

// What a statement says, by what its word is; what follows END is not looked at.
#[tactic(auto, using(crate::proofs::Ranges::says_value, crate::proofs::Ranges::says_failure))]
fn by_word(s: &[u8], word: Word, from: Cursor) -> Result<Statement, Failure>
    ensures { result ≡ by_word s.now word (tokens_from s.now from.at) }
{
    match word {
        Word::Instructs(op) => {
            let Operands { first, second } = instruction(s, op, from)?;
            Ok(Statement::Instruction(op, first, second))
        }
        Word::Org => Ok(Statement::Org(outcome(s, from, 0)?)),
        Word::Equ => Ok(Statement::Equ(outcome(s, from, -32768)?)),
        Word::Res => Ok(Statement::Res(outcome(s, from, 0)?)),
        Word::Data => Ok(Statement::Data(items(s, from)?)),
        Word::End => Ok(Statement::End),
        Word::Unknown => Err(Failure::UnknownWord),
    }
}

// The statement that a token begins: its word is that token.
fn statement(s: &[u8], w: Token) -> Result<Statement, Failure>
    ensures { result ≡ statement_read s.now (begun_by s.now w) }
{
    match w.kind {
        Kind::End => Ok(Statement::Nothing),
        Kind::Word => by_word(s, statement_word(s, w.start, w.next.at), w.next),
        _ => Err(Failure::WrongForm),
    }
}

// A line without a statement is answered at once: of those there are many, and the arms of all the others cost it half as much again.
#[tactic(auto, unfolding(crate::specs::Reading::line_read, crate::specs::Reading::statement_read, crate::specs::Inner::Parts::begun_by))]
pub fn read_line(line: &[u8]) -> LineRead
    ensures { result ≡ line_read line.now }
{
    let found = label(line);
    if matches!(found.word.kind, Kind::End) {
        return LineRead {
            label: found.label,
            statement: Ok(Statement::Nothing),
        };
    }
    LineRead {
        label: found.label,
        statement: statement(line, found.word),
    }
}
