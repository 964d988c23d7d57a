// What a good loan is (specs/Stops.antt).
ghost use Rattle.std.specs.Prelude.{◌≡◌};
ghost use Rattle.machine.specs.States.{state};
ghost use Rattle.machine.specs.Stops.{good_loan};

use super::Registers;
use codes::limits::{LARGEST_SR, LARGEST_STOP_CODE, MOST_CELLS};
use codes::registers::SR;

#[tactic(auto, unfolding(crate::specs::Stops::good_loan))]
pub(crate) fn is_good(g: Registers, m: &[u16], input: &[u8], out: &[u8]) -> bool
    ensures { result ≡ good_loan input.now (state g m.now out.now) }
{
    0 < m.len()
        && m.len() <= MOST_CELLS
        && g.taken <= input.len()
        && g.written <= out.len()
        && g.r[SR] <= LARGEST_SR
        && g.stop <= LARGEST_STOP_CODE
}
