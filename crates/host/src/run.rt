// A run (machine's specs/Runs.antt): a host that runs 1,000 steps crosses the border once.
ghost use Rattle.std.specs.Prelude.{◌≡◌};
ghost use Rattle.machine.specs.States.{state};
ghost use Rattle.machine.specs.Runs.{ending, limited_run};

use machine::Registers;
use machine::run::run;

#[unsafe(no_mangle)]
pub extern "C" fn ens2025_run(
    g: &mut Registers,
    m: &mut [u16],
    input: &[u8],
    out: &mut [u8],
    budget: u32,
    count: &mut u32,
) -> u8
    ensures { ending (state g.new m.new out.new) result count.new
        ≡ limited_run budget input.now (state g.old m.old out.old) }
{
    let ran = run(*g, m, input, out, budget);
    *g = ran.registers;
    *count = ran.count;
    ran.stop
}
