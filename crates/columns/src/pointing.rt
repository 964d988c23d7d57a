// What a refusal of a line points at: the line is read once more (specs/Columns.antt).
ghost use Rattle.std.specs.Prelude.{◌≡◌};
ghost use Rattle.tokens.specs.Reading.{tokens_from};
ghost use Rattle.statements.specs.Inner.Parts.{begun_by};
ghost use Rattle.columns.specs.Columns.{out_place, place_by, place_in, column_of, read_again, pointed_at, pointed};
ghost use Rattle.columns.specs.Points.{operand_of};

use super::own::{column_at, label_column, word_column};
use super::{Column, Pointed};
use expressions::places::{fault, too_deep};
use faults::place::place;
use names::Word;
use names::lookup::statement_word;
use numerals::Cursor;
use operands::places::operand_start;
use statements::Failure;
use statements::labels::{is_word, label};
use statements::line::read_line;
use tokens::Token;

// The number out of range behind a statement's word: an operand's, an item's, or in an expression a number or an operation's mark.
fn out_place(line: &[u8], word: Word, from: Cursor) -> usize
    ensures { result ≡ out_place line.now word (tokens_from line.now from.at) }
{
    match word {
        Word::Instructs(_) => operands::places::number_out(line, from),
        Word::Org | Word::Equ | Word::Res => fault(line, from),
        Word::Data => items::places::number_out(line, from),
        Word::End | Word::Unknown => 0,
    }
}

// The place of a failure in a statement whose word starts at a place, from the cursor behind the word.
fn place_by(line: &[u8], why: Failure, at: usize, word: Word, from: Cursor) -> usize
    ensures { result ≡ place_by line.now why at word (tokens_from line.now from.at) }
{
    match why {
        Failure::UnknownWord | Failure::WrongCount | Failure::ResultOut => at,
        Failure::WrongForm => place(line),
        Failure::WrongKind(i) => operand_start(line, from, i == 2),
        Failure::TooDeep => too_deep(line, from),
        Failure::OutOfRange => out_place(line, word, from),
        Failure::ByZero => fault(line, from),
    }
}

// The same of the statement that a token begins.
#[tactic(auto, using(crate::proofs::Found::no_word_place, crate::proofs::Found::some_word_place))]
fn place_in(line: &[u8], why: Failure, w: Token) -> usize
    ensures { result ≡ place_in line.now why (begun_by line.now w) }
{
    if !is_word(w.kind) {
        return place(line);
    }
    place_by(
        line,
        why,
        w.start,
        statement_word(line, w.start, w.next.at),
        w.next,
    )
}

#[tactic(auto, unfolding(crate::specs::Columns::column_of))]
fn failure_column(line: &[u8], why: Failure) -> Column
    ensures { result.0 ≡ column_of line.now why }
{
    column_at(line, place_in(line, why, label(line).word))
}

// The place of the operand that is wrong in kind.
fn operand_of(why: Failure) -> u8
    ensures { result ≡ operand_of why }
{
    match why {
        Failure::WrongKind(i) => i,
        _ => 0,
    }
}

fn beside(column: Column) -> Pointed
    ensures { result ≡ pointed_at column.0 0 }
{
    Pointed { column, place: 0 }
}

// By the line's reading: a line that passes its own checks was refused for an address.
#[tactic(auto, unfolding(crate::specs::Columns::read_again))]
fn read_again(line: &[u8]) -> Pointed
    ensures { result ≡ read_again line.now }
{
    match read_line(line).statement {
        Ok(_) => beside(word_column(line)),
        Err(why) => Pointed {
            column: failure_column(line, why),
            place: operand_of(why),
        },
    }
}

// What a line that is refused with a number points at. The numbers are document 01's, and the promise is for each of them: no enum.
#[tactic(auto, unfolding(crate::specs::Columns::pointed))]
pub fn pointed(line: &[u8], number: u8) -> Pointed
    ensures { result ≡ pointed line.now number }
{
    match number {
        9 | 10 => beside(label_column(line)),
        11 | 12 => beside(word_column(line)),
        _ => read_again(line),
    }
}
