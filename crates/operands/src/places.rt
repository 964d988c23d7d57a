// Where an operand and its number stand in the line (specs/Places.antt), for a refusal's column.
ghost use Rattle.std.specs.Prelude.{cond, ◌≡◌};
ghost use Rattle.tokens.specs.Reading.{tokens_from};
ghost use Rattle.operands.specs.Places.{start_of, after_comma, number_start_in, operand_start_in, out_by, number_out_in};
ghost use Rattle.operands.specs.Checks.{word_of};

use super::FirstTwo;
use super::listed::operands;
use super::words::word_of;
use numerals::Cursor;
use tokens::Kind;
use tokens::marks::mark_at;
use tokens::tokens::next_token;

// Where the token at a cursor starts; 0 at the line's end.
fn start_at(s: &[u8], from: Cursor) -> usize
    ensures { result ≡ start_of (tokens_from s.now from.at) }
{
    let t = next_token(s, from);
    match t.kind {
        Kind::End => 0,
        _ => t.start,
    }
}

// The cursor behind the first comma, or at the line's end.
fn behind_comma(s: &[u8], from: Cursor) -> Cursor
    ensures { tokens_from s.now result.at ≡ after_comma (tokens_from s.now from.at) }
{
    let mut at = from;
    // no iterator: where the next token starts is known only when this one is read
    loop {
        let t = next_token(s, at);
        match t.kind {
            Kind::End => return at,
            Kind::Stray => return Cursor { at: s.len() },
            Kind::Mark(b) if b == b',' => return t.next,
            _ => at = t.next,
        }
    }
}

// Where the first or the second operand starts.
#[tactic(auto, unfolding(crate::specs::Places::operand_start_in, crate::specs::Places::after_commas))]
pub fn operand_start(s: &[u8], from: Cursor, second: bool) -> usize
    ensures { result ≡ operand_start_in (tokens_from s.now from.at) (cond second 2 1) }
{
    if second {
        start_at(s, behind_comma(s, from))
    } else {
        start_at(s, from)
    }
}

// Where the number of the operand at a cursor starts: behind its first mark.
fn number_start(s: &[u8], from: Cursor) -> usize
    ensures { result ≡ number_start_in (tokens_from s.now from.at) }
{
    mark_at(s, from).map_or(0, |mark| start_at(s, mark.next))
}

fn first_out(s: &[u8], from: Cursor, all: FirstTwo) -> usize
    ensures { result ≡ out_by (tokens_from s.now from.at) (word_of all.first) (word_of all.second) }
{
    if word_of(all.first).is_none() {
        return number_start(s, from);
    }
    if word_of(all.second).is_none() {
        return number_start(s, behind_comma(s, from));
    }
    0
}

// Where the first number out of range starts, of the first two operands.
pub fn number_out(s: &[u8], from: Cursor) -> usize
    ensures { result ≡ number_out_in s.now (tokens_from s.now from.at) }
{
    operands(s, from).map_or(0, |all| first_out(s, from, all))
}
