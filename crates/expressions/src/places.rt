// The place of an expression's refusal in its line (specs/Places.antt).
ghost use Rattle.std.specs.Prelude.{true, ◌≡◌};
ghost use Rattle.tokens.specs.Reading.{tokens_from};
ghost use Rattle.expressions.specs.Places.{fault_in, too_deep_in};
ghost use Rattle.expressions.specs.Inner.Scanning.{level_at};

use super::Scan;
use super::parts::sum;
use super::scanning::{right_form, scan_step};
use super::symbols::{is_end, symbol_of};
use super::worths::fault_place;
use codes::limits::DEEPEST;
use numerals::Cursor;
use tokens::tokens::next_token;

// The place of the number or the mark that is the first fault (6 or 7) of the expression from a cursor on, 0 where there is none.
pub fn fault(s: &[u8], from: Cursor) -> usize
    ensures { result ≡ fault_in (tokens_from s.now from.at) }
{
    match sum(s, from, DEEPEST) {
        Ok(read) if is_end(next_token(s, read.next).kind) => fault_place(read.value),
        _ => 0,
    }
}

// The leftmost parenthesis at which more than the deepest are open, in a row of right form.
fn level_past(s: &[u8], from: Cursor) -> usize
    ensures { result ≡ level_at (tokens_from s.now from.at) true 0 }
{
    let mut at = from; // no `for`: each token is read where the one before it ends
    let mut scan = Scan {
        operand: true,
        height: 0,
    };
    loop {
        let t = next_token(s, at);
        // the row's end is no symbol of an expression: no step goes on from it
        let Some(further) = scan_step(symbol_of(t.kind), scan.operand, scan.height) else {
            return 0;
        };
        if (DEEPEST as usize) < further.height {
            return t.start;
        }
        at = t.next;
        scan = further;
    }
}

// The place of the parenthesis that opens level 33 (8) in the expression from a cursor on, 0 where there is none.
pub fn too_deep(s: &[u8], from: Cursor) -> usize
    ensures { result ≡ too_deep_in (tokens_from s.now from.at) }
{
    if right_form(s, from) {
        level_past(s, from)
    } else {
        0
    }
}
