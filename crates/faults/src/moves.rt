// How a word, a number, a string, a mark or a blank moves a state on (specs/Forms.antt).
ghost use Rattle.std.specs.Prelude.{cond, ◌≡◌, ◌<◌};
ghost use Rattle.std.proofs.Math.Seq.{slice};
ghost use Rattle.expressions.specs.Reading.{mark_symbol};
ghost use Rattle.expressions.specs.Inner.Scanning.{scan_step};
ghost use Rattle.faults.specs.Forms.{put, scanned, enter, indexes, decimal, starts, word_step, number_step, text_step, mark_step, blank_step};
ghost use Rattle.faults.specs.Inner.Stages.{opens};
ghost use Rattle.faults.specs.declared.State.TheVariants.{AfterHash, Dead};

use super::State;
use codes::registers::{IX, IY, REGISTER_COUNT, SP};
use expressions::scanning::scan_step;
use expressions::symbols::mark_symbol;
use names::Word;
use names::lookup::{register_code, statement_word};
use numerals::Radix;

// Behind what may stand, or not.
fn behind(stands: bool, then: State) -> State
    ensures { result ≡ cond stands then Dead }
{
    if stands { then } else { State::Dead }
}

// Behind a statement's word.
fn entered(w: Word) -> State
    ensures { result ≡ enter w }
{
    match w {
        Word::Instructs(_) => State::Field,
        Word::Org | Word::Equ | Word::Res => State::Expression(true, 0),
        Word::Data => State::Item,
        Word::End => State::Ended,
        Word::Unknown => State::Dead,
    }
}

// Behind a value: after `#` an index may follow.
fn behind_value(hash: bool) -> State
    ensures { result ≡ put hash }
{
    if hash { State::AfterHash } else { State::Done }
}

// Behind the name of an index.
#[tactic(auto, unfolding(crate::specs::Forms::indexes))]
fn behind_index(code: u16) -> State
    ensures { result ≡ indexes code }
{
    match code as usize {
        IX | IY | SP => State::Closing,
        _ => State::Dead,
    }
}

// The word from `start` to `end`.
pub(crate) fn by_word(st: State, s: &[u8], start: usize, end: usize) -> State
    ensures { result ≡ word_step st (slice start end s.now) }
{
    match st {
        State::Start | State::Body => entered(statement_word(s, start, end)),
        State::Value(hash) => behind_value(hash),
        State::IndexName => behind_index(register_code(s, start, end)),
        State::RegisterName => behind(register_code(s, start, end) < REGISTER_COUNT, State::Done),
        State::IndirectName => behind(
            register_code(s, start, end) < REGISTER_COUNT,
            State::Closing,
        ),
        State::Ended => State::Ended,
        _ => State::Dead,
    }
}

// Behind digits after a `-`: they are decimal.
fn behind_decimal(radix: Radix, then: State) -> State
    ensures { result ≡ decimal radix then }
{
    match radix {
        Radix::Decimal => then,
        Radix::Hexadecimal => State::Dead,
    }
}

pub(crate) fn by_number(st: State, radix: Radix) -> State
    ensures { result ≡ number_step st radix }
{
    match st {
        State::Value(hash) => behind_value(hash),
        State::Digits(hash) => behind_decimal(radix, behind_value(hash)),
        State::Expression(operand, height) => behind(operand, State::Expression(false, height)),
        State::Item => State::ItemDone,
        State::ItemDigits => behind_decimal(radix, State::ItemDone),
        State::Ended => State::Ended,
        _ => State::Dead,
    }
}

pub(crate) fn by_text(st: State) -> State
    ensures { result ≡ text_step st }
{
    match st {
        State::Item => State::ItemDone,
        State::Ended => State::Ended,
        _ => State::Dead,
    }
}

// Behind an operand's first mark.
#[tactic(auto, unfolding(crate::specs::Forms::starts))]
fn behind_first(b: u8) -> State
    ensures { result ≡ starts b }
{
    match b {
        b'#' => State::Value(true),
        b'.' => State::RegisterName,
        b'/' => State::Value(false),
        b'[' => State::IndirectDot,
        b'$' => State::Value(false),
        _ => State::Dead,
    }
}

// Behind a mark after `#v`.
fn behind_immediate(b: u8) -> State
    ensures { result ≡ mark_step AfterHash b }
{
    match b {
        b'[' => State::IndexDot,
        b',' => State::Operand,
        _ => State::Dead,
    }
}

// Behind a mark in an expression.
fn behind_symbol(b: u8, operand: bool, height: usize) -> State
    requires { height < 18446744073709551615 }
    ensures { result ≡ scanned (scan_step (mark_symbol b) operand height) }
{
    match scan_step(mark_symbol(b), operand, height) {
        Some(scan) => State::Expression(scan.operand, scan.height),
        None => State::Dead,
    }
}

pub(crate) fn by_mark(st: State, b: u8) -> State
    requires { opens st < 18446744073709551615 }
    ensures { result ≡ mark_step st b }
{
    match st {
        State::Field | State::Operand => behind_first(b),
        State::Value(hash) => behind(b == b'-', State::Digits(hash)),
        State::AfterHash => behind_immediate(b),
        State::IndexDot => behind(b == b'.', State::IndexName),
        State::IndirectDot => behind(b == b'.', State::IndirectName),
        State::Closing => behind(b == b']', State::Done),
        State::Done => behind(b == b',', State::Operand),
        State::Expression(operand, height) => behind_symbol(b, operand, height),
        State::Item => behind(b == b'-', State::ItemDigits),
        State::ItemDone => behind(b == b',', State::Item),
        State::Ended => State::Ended,
        _ => State::Dead,
    }
}

// "Blanks may stand between them, never inside one".
pub(crate) fn by_blank(st: State) -> State
    ensures { result ≡ blank_step st }
{
    match st {
        State::Digits(_) | State::ItemDigits => State::Dead,
        _ => st,
    }
}
