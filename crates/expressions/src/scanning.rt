// The form of a row of tokens in constant space, however many parentheses are open (specs/Inner/Scanning.antt).
ghost use Rattle.std.specs.Prelude.{true, ◌≡◌, ◌<◌};
ghost use Rattle.tokens.specs.Reading.{tokens_from};
ghost use Rattle.expressions.specs.Inner.Scanning.{scan_step, scan_end, right_form};

use super::symbols::{is_end, symbol_of};
use super::{Scan, Symbol};
use numerals::Cursor;
use tokens::tokens::next_token;

// One token where an operand is next or not, and so many parentheses are open. None: the form is wrong.
pub fn scan_step(y: Symbol, operand: bool, height: usize) -> Option<Scan>
    requires { height < 18446744073709551615 }
    ensures { result ≡ scan_step y operand height }
{
    match (operand, y) {
        (true, Symbol::Number(_)) => Some(Scan {
            operand: false,
            height,
        }),
        (true, Symbol::Opens) => Some(Scan {
            operand: true,
            height: height + 1,
        }),
        (false, Symbol::Sums(_) | Symbol::Products(_)) => Some(Scan {
            operand: true,
            height,
        }),
        (false, Symbol::Shuts) => Some(Scan {
            operand: false,
            height: height.checked_sub(1)?,
        }),
        _ => None,
    }
}

// Whether a row may end here.
pub fn may_end(operand: bool, height: usize) -> bool
    ensures { result ≡ scan_end operand height }
{
    !operand && height == 0
}

// Whether the tokens from a cursor on have the form of an expression.
pub(crate) fn right_form(s: &[u8], from: Cursor) -> bool
    ensures { result ≡ right_form (tokens_from s.now from.at) true 0 }
{
    let mut at = from; // no `for`: each token is read where the one before it ends
    let mut scan = Scan {
        operand: true,
        height: 0,
    };
    loop {
        let t = next_token(s, at);
        if is_end(t.kind) {
            return may_end(scan.operand, scan.height);
        }
        let Some(further) = scan_step(symbol_of(t.kind), scan.operand, scan.height) else {
            return false;
        };
        at = t.next;
        scan = further;
    }
}
