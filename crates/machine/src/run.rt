// A run: so many steps (specs/Runs.antt).
ghost use Rattle.std.specs.Prelude.{◌≡◌, true};
ghost use Rattle.machine.specs.States.{state};
ghost use Rattle.machine.specs.Stops.{good_loan};
ghost use Rattle.machine.specs.Runs.{ending, run_of, limited_run};

use super::lent::{code_after, inner};
use super::loans::is_good;
use super::{Ran, Registers};
use codes::limits::LARGEST_BUDGET;
use codes::stops::{BAD_LOAN, BUDGET_SPENT, NONE};

fn ended(registers: Registers, stop: u8, count: u32) -> Ran
    ensures { result ≡ record { registers = registers; stop = stop; count = count } }
{
    Ran {
        registers,
        stop,
        count,
    }
}

// A run of a machine that is not stopped, on a good loan: the registers are copied once.
// No `for`: the count goes up within a turn, before its last way out, and each way out tells it.
fn running_on(g: Registers, m: &mut [u16], input: &[u8], out: &mut [u8], budget: u32) -> Ran
    requires { (good_loan input.now (state g m.old out.old) ≡ true) × (g.stop ≡ 0) }
    ensures { ending (state result.registers m.new out.new) result.stop result.count
        ≡ run_of budget input.now (state g m.old out.old) }
{
    let mut r = g.r;
    let mut taken = g.taken;
    let mut written = g.written;
    let mut count: u32 = 0;
    while count < budget {
        let a = inner(&mut r, m, input, out, taken, written);
        taken = a.taken;
        written = a.written;
        if !a.completed {
            let code = code_after(false, a.stop);
            return ended(
                Registers {
                    r,
                    stop: code,
                    taken,
                    written,
                },
                a.stop,
                count,
            );
        }
        count += 1;
        if a.stop != NONE {
            return ended(
                Registers {
                    r,
                    stop: a.stop,
                    taken,
                    written,
                },
                a.stop,
                count,
            );
        }
    }
    ended(
        Registers {
            r,
            stop: NONE,
            taken,
            written,
        },
        BUDGET_SPENT,
        count,
    )
}

// A run with a budget of at most 1,000,000 steps.
pub fn run(g: Registers, m: &mut [u16], input: &[u8], out: &mut [u8], budget: u32) -> Ran
    ensures { ending (state result.registers m.new out.new) result.stop result.count
        ≡ limited_run budget input.now (state g m.old out.old) }
{
    if LARGEST_BUDGET < budget {
        return ended(g, BAD_LOAN, 0);
    }
    if !is_good(g, m, input, out) {
        return ended(g, BAD_LOAN, 0);
    }
    if g.stop != NONE {
        return ended(g, g.stop, 0);
    }
    running_on(g, m, input, out, budget)
}
