// One step: registers in, registers back (specs/Steps.antt). It is a run of one step, so that the inner step has one caller, the run's
// loop, and is compiled into it: with two callers a run takes a third longer.
ghost use Rattle.std.specs.Prelude.{◌≡◌};
ghost use Rattle.machine.specs.States.{state};
ghost use Rattle.machine.specs.Steps.{reply, reply_of};
ghost use Rattle.machine.specs.Inner.Lent.{of_one_step};

use super::run::run;
use super::{Registers, Stepped};
use codes::stops::{BUDGET_SPENT, NONE};

// A step's stop, by that of a run of one step: a budget that is spent is none.
fn of_one_step(stop: u8) -> u8
    ensures { result ≡ of_one_step stop }
{
    if stop == BUDGET_SPENT { NONE } else { stop }
}

pub fn step(g: Registers, m: &mut [u16], input: &[u8], out: &mut [u8]) -> Stepped
    ensures { reply (state result.registers m.new out.new) result.stop
        ≡ reply_of input.now (state g m.old out.old) }
{
    let ran = run(g, m, input, out, 1);
    Stepped {
        registers: ran.registers,
        stop: of_one_step(ran.stop),
    }
}
