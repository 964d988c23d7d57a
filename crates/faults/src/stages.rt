// How a byte moves a stage on (specs/Walk.antt, specs/Inner/Stages.antt).
ghost use Rattle.std.specs.Prelude.{cond, true, false, [], ◌∷◌, ◌≡◌, ◌<◌};
ghost use Rattle.std.proofs.Math.Seq.{slice};
ghost use Rattle.numerals.specs.declared.Radix.TheVariants.{Decimal, Hexadecimal};
ghost use Rattle.faults.specs.Forms.{final};
ghost use Rattle.faults.specs.Walk.{first_digit, begin, word_end, number_end, step, live, in_word, grows, goes};
ghost use Rattle.faults.specs.Walk as L;
ghost use Rattle.faults.specs.Inner.Stages.{spelt, opens, opens_in};
ghost use Rattle.faults.specs.declared.State.TheVariants.{Ended, Dead};

use super::moves::{by_blank, by_mark, by_number, by_text, by_word};
use super::states::{is_ended, is_final, is_start, lives};
use super::{Stage, State};
use numerals::Radix;
use numerals::bytes::rank_of;
use tokens::marks::is_mark;
use tokens::tokens::is_blank;

// A number's first digit.
fn first_digit(st: State, b: u8) -> Stage
    ensures { spelt result (b ∷ []) ≡ first_digit st b }
{
    if b == b'0' {
        Stage::Zero(st)
    } else {
        Stage::Decimal(st)
    }
}

// A comment, where the line may end.
fn comment(st: State) -> State
    ensures { result ≡ cond (final st) Ended Dead }
{
    if is_final(st) {
        State::Ended
    } else {
        State::Dead
    }
}

// A byte between tokens.
fn begin(st: State, b: u8) -> Stage
    requires { opens st < 18446744073709551615 }
    ensures { spelt result (b ∷ []) ≡ begin st b }
{
    if is_ended(st) {
        return Stage::Between(State::Ended);
    }
    if is_blank(b) {
        return Stage::Between(by_blank(st));
    }
    let rank = rank_of(b);
    if rank < 10 {
        return first_digit(st, b);
    }
    if rank < 17 {
        return Stage::Word(st);
    }
    if b == b'"' {
        return Stage::Quoted(st);
    }
    if b == b';' {
        return Stage::Between(comment(st));
    }
    if is_mark(b) {
        return Stage::Between(by_mark(st, b));
    }
    Stage::Between(State::Dead)
}

// The byte behind the word from `start` to `end`.
#[tactic(auto, unfolding(crate::specs::Walk::word_end))]
fn word_end(s: &[u8], st: State, start: usize, end: usize, b: u8) -> Stage
    ensures { spelt result (b ∷ []) ≡ word_end st (slice start end s.now) b }
{
    if is_start(st) && b == b':' {
        return Stage::Between(State::Body);
    }
    begin(by_word(st, s, start, end), b)
}

// The byte behind a number.
#[tactic(auto, unfolding(crate::specs::Walk::number_end))]
fn number_end(st: State, radix: Radix, b: u8) -> Stage
    requires { opens st < 18446744073709551615 }
    ensures { spelt result (b ∷ []) ≡ number_end st radix b }
{
    if rank_of(b) < 17 {
        return Stage::Between(State::Dead);
    }
    begin(by_number(st, radix), b)
}

// The byte behind a number's first `0`.
fn zero(st: State, b: u8) -> Stage
    requires { opens st < 18446744073709551615 }
    ensures { spelt result (b ∷ []) ≡ step (L.zero st) b }
{
    if rank_of(b) < 10 {
        return Stage::Decimal(st);
    }
    if b == b'x' {
        return Stage::Prefixed(st);
    }
    number_end(st, Radix::Decimal, b)
}

// A byte behind decimal digits. `decimal` and `hexadecimal` stay two: they differ in the stage, the base and the radix, so one
// function would take all three.
fn decimal(st: State, b: u8) -> Stage
    requires { opens st < 18446744073709551615 }
    ensures { spelt result (b ∷ []) ≡ step (L.decimal st) b }
{
    if rank_of(b) < 10 {
        return Stage::Decimal(st);
    }
    number_end(st, Radix::Decimal, b)
}

// The byte behind `0x`.
fn prefixed(st: State, b: u8) -> Stage
    ensures { spelt result (b ∷ []) ≡ step (L.prefixed st) b }
{
    if rank_of(b) < 16 {
        Stage::Hexadecimal(st)
    } else {
        Stage::Between(State::Dead)
    }
}

// A byte behind hexadecimal digits.
fn hexadecimal(st: State, b: u8) -> Stage
    requires { opens st < 18446744073709551615 }
    ensures { spelt result (b ∷ []) ≡ step (L.hexadecimal st) b }
{
    if rank_of(b) < 16 {
        return Stage::Hexadecimal(st);
    }
    number_end(st, Radix::Hexadecimal, b)
}

// A byte inside a string.
fn quoted(st: State, b: u8) -> Stage
    ensures { spelt result (b ∷ []) ≡ step (L.quoted st) b }
{
    match b {
        b'"' => Stage::Between(by_text(st)),
        b'\\' => Stage::Escaped(st),
        b' '..=b'~' => Stage::Quoted(st),
        _ => Stage::Between(State::Dead),
    }
}

// The byte behind a string's backslash.
fn escaped(st: State, b: u8) -> Stage
    ensures { spelt result (b ∷ []) ≡ step (L.escaped st) b }
{
    if b == b'n' {
        Stage::Quoted(st)
    } else {
        Stage::Between(State::Dead)
    }
}

// A byte that goes on no word; a word stands from `start` to `end`.
pub(crate) fn step(s: &[u8], x: Stage, start: usize, end: usize, b: u8) -> Stage
    requires { (opens_in (spelt x (slice start end s.now)) < 18446744073709551615) × (grows (spelt x (slice start end s.now)) b ≡ false) }
    ensures { spelt result (b ∷ []) ≡ step (spelt x (slice start end s.now)) b }
{
    match x {
        Stage::Between(st) => begin(st, b),
        Stage::Word(st) => word_end(s, st, start, end, b),
        Stage::Zero(st) => zero(st, b),
        Stage::Decimal(st) => decimal(st, b),
        Stage::Prefixed(st) => prefixed(st, b),
        Stage::Hexadecimal(st) => hexadecimal(st, b),
        Stage::Quoted(st) => quoted(st, b),
        Stage::Escaped(st) => escaped(st, b),
    }
}

// Whether a word may stand from `start` to `end`: as a label, or as what the state has.
fn word_lives(s: &[u8], st: State, start: usize, end: usize) -> bool
    ensures { result ≡ live (L.word st (slice start end s.now)) }
{
    is_start(st) || lives(by_word(st, s, start, end))
}

// Whether something goes on from here; a word stands from `start` to `end`.
pub(crate) fn live(s: &[u8], x: Stage, start: usize, end: usize) -> bool
    ensures { result ≡ live (spelt x (slice start end s.now)) }
{
    match x {
        Stage::Between(st) => lives(st),
        Stage::Word(st) => word_lives(s, st, start, end),
        Stage::Zero(st) | Stage::Decimal(st) => lives(by_number(st, Radix::Decimal)),
        Stage::Prefixed(st) | Stage::Hexadecimal(st) => lives(by_number(st, Radix::Hexadecimal)),
        Stage::Quoted(st) | Stage::Escaped(st) => lives(by_text(st)),
    }
}

fn in_word(x: Stage) -> bool
    ensures { result ≡ in_word (spelt x []) }
{
    matches!(x, Stage::Word(_))
}

// Whether a byte goes on a word.
pub(crate) fn grows(x: Stage, b: u8) -> bool
    ensures { result ≡ grows (spelt x []) b }
{
    in_word(x) && rank_of(b) < 17
}

// Whether the walk goes on: a word may still grow.
pub(crate) fn goes(s: &[u8], x: Stage) -> bool
    ensures { result ≡ goes (spelt x []) }
{
    in_word(x) || live(s, x, 0, 0)
}
