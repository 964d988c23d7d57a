// The flags of a result.
ghost use Rattle.std.specs.Prelude.{◌≡◌, ◌≤◌};
ghost use Rattle.arithmetic.specs.Flags.{bit};
ghost use Rattle.arithmetic.specs.Operations.{outcome};

use super::Outcome;
use codes::flags::{FOR_C, FOR_P, FOR_S, FOR_V, FOR_Z};

fn bit_of(on: bool) -> u16
    ensures value { result ≡ bit on }
    ensures upper_bound { result ≤ 1 }
{
    if on { 1 } else { 0 }
}

pub(crate) fn outcome_of(res: u16, carry: bool, overflow: bool) -> Outcome
    ensures { result ≡ outcome res carry overflow }
{
    let odd = u16::count_ones(res) % 2;
    let flags = bit_of(res == 0) * FOR_Z
        + bit_of(carry) * FOR_C
        + bit_of(overflow) * FOR_V
        + bit_of(odd == 1) * FOR_P
        + bit_of(32768 <= res) * FOR_S;
    Outcome { value: res, flags }
}
