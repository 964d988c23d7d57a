// What a token is to an expression (specs/Reading.antt).
ghost use Rattle.std.specs.Prelude.{◌≡◌};
ghost use Rattle.expressions.specs.Reading.{mark_symbol, kind_symbol};
ghost use Rattle.expressions.specs.Inner.Parts.{is_end};

use super::{Operation, Symbol};
use tokens::Kind;

// What a mark is.
#[tactic(auto, unfolding(crate::specs::Reading::mark_symbol))]
pub fn mark_symbol(b: u8) -> Symbol
    ensures { result ≡ mark_symbol b }
{
    match b {
        b'(' => Symbol::Opens,
        b')' => Symbol::Shuts,
        b'+' => Symbol::Sums(Operation::Plus),
        b'-' => Symbol::Sums(Operation::Minus),
        b'*' => Symbol::Products(Operation::Times),
        b'/' => Symbol::Products(Operation::Over),
        b'%' => Symbol::Products(Operation::Rest),
        _ => Symbol::Other,
    }
}

pub(crate) fn symbol_of(k: Kind) -> Symbol
    ensures { result ≡ kind_symbol k }
{
    match k {
        Kind::Number(v, _) => Symbol::Number(v),
        Kind::Mark(b) => mark_symbol(b),
        _ => Symbol::Other,
    }
}

pub(crate) fn is_end(k: Kind) -> bool
    ensures { result ≡ is_end k }
{
    matches!(k, Kind::End)
}
