// One step (machine's specs/Steps.antt).
ghost use Rattle.std.specs.Prelude.{◌≡◌};
ghost use Rattle.machine.specs.States.{state};
ghost use Rattle.machine.specs.Steps.{reply, reply_of};

use machine::Registers;
use machine::step::step;

#[unsafe(no_mangle)]
pub extern "C" fn ens2025_step(g: &mut Registers, m: &mut [u16], input: &[u8], out: &mut [u8]) -> u8
    ensures { reply (state g.new m.new out.new) result
        ≡ reply_of input.now (state g.old m.old out.old) }
{
    let stepped = step(*g, m, input, out);
    *g = stepped.registers;
    stepped.stop
}
