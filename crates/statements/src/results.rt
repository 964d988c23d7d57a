// What an expression comes to as a statement's number (specs/Inner/Parts.antt).
ghost use Rattle.std.specs.Prelude.{◌≡◌, ◌<◌};
ghost use Rattle.std.specs.Int.Signed.{mag};
ghost use Rattle.tokens.specs.Reading.{tokens_from};
ghost use Rattle.expressions.specs.Reading.{expression_read};
ghost use Rattle.statements.specs.Inner.Parts.{cell_in, outcome_of};

use super::Failure;
use expressions::reading::expression;
use numerals::Cursor;

// A result from the least one up to 65535, kept modulo 65536.
fn in_range(least: i32, z: i32) -> Result<u16, Failure>
    requires { mag least < 65536 }
    ensures { result ≡ cell_in least z }
{
    if z < least || 65535 < z {
        return Err(Failure::ResultOut);
    }
    Ok(z.rem_euclid(65536) as u16)
}

// Form 3, depth 8, and 6 or 7 of the expression come before the result's range.
pub(crate) fn outcome(s: &[u8], from: Cursor, least: i32) -> Result<u16, Failure>
    requires { mag least < 65536 }
    ensures { result ≡ outcome_of least (expression_read (tokens_from s.now from.at)) }
{
    in_range(least, expression(s, from)??)
}
