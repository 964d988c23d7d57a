// The cell that keeps a displacement (specs/Ranges.antt); any other number is `numerals`' own.
ghost use Rattle.std.specs.Prelude.{◌≡◌};
ghost use Rattle.values.specs.Ranges.{displacement_of};

use numerals::reading::kept;
use numerals::{Numeral, Radix};

// None: it is out of range, a decimal one above 32767 too.
#[tactic(auto, unfolding(crate::specs::Ranges::displacement_of))]
pub fn displacement(n: Numeral) -> Option<u16>
    ensures { result ≡ displacement_of n }
{
    match n.radix {
        Radix::Decimal if !n.negative && 32767 < n.magnitude => None,
        _ => kept(n),
    }
}
