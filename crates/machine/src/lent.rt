// The step that is lent the register array: a machine that runs, on a good loan (specs/Steps.antt, `runsOn`).
ghost use Rattle.std.specs.Prelude.{◌≡◌, List, ℕ, ◌<◌, length};
ghost use Rattle.isa.specs.Decoding.{first_word_read, decode_word};
ghost use Rattle.effects.specs.Inner.Located.{perform_unless};
ghost use Rattle.machine.specs.Steps.{stop_at, does, halts, takes, goes_on, fills, prints, asks, performed, decoded, runs_on};
ghost use Rattle.machine.specs.Inner.Lent.{running, code_after, left, instruction_at};

use super::Inner;
use codes::flags::FOR_H;
use codes::registers::{PC, SP, SR};
use codes::stops::{HALTED, MEMORY_END, NO_OPCODE, NONE, ZERO_DIVISOR};
use effects::apply::{change_memory, change_registers};
use effects::perform::{has_target, perform};
use effects::places::located;
use effects::{Effect, Performed, Place, Port};
use isa::Opcode;
use isa::decoding::{first_word, size_of, word_at};
use ports::Taken;

fn answered(stop: u8, completed: bool, taken: usize, written: usize) -> Inner
    ensures { result ≡ record { stop = stop; completed = completed; taken = taken; written = written } }
{
    Inner {
        stop,
        completed,
        taken,
        written,
    }
}

#[tactic(auto, unfolding(crate::specs::Steps::stop_at))]
fn stop_at(next: usize, size: usize) -> u8
    ensures { result ≡ stop_at next size }
{
    if next < size { NONE } else { MEMORY_END }
}

// The stop code that a machine that ran is left with.
pub(crate) fn code_after(completed: bool, stop: u8) -> u8
    ensures { result ≡ code_after completed stop }
{
    if completed || (NO_OPCODE <= stop && stop <= ZERO_DIVISOR) {
        stop
    } else {
        NONE
    }
}

// An effect, with the positions after it.
fn do_effect(r: &mut [u16; 16], m: &mut [u16], e: Effect, taken: usize, written: usize) -> Inner
    ensures { (out : List ℕ) (was is : ℕ) → left r.new m.new out result
        ≡ does (running r.old m.old out was is) e taken written }
{
    change_registers(r, e);
    change_memory(m, e);
    answered(stop_at(e.next, m.len()), true, taken, written)
}

#[tactic(auto, unfolding(crate::specs::Steps::halts))]
fn halt(r: &mut [u16; 16], next: usize, taken: usize, written: usize) -> Inner
    ensures { (m out : List ℕ) → left r.new m out result ≡ halts (running r.old m out taken written) next }
{
    r[SR] = r[SR] % FOR_H + FOR_H;
    r[PC] = (next % 65536) as u16;
    answered(HALTED, true, taken, written)
}

// INCHAR and ININT: the value goes to a place.
fn take(
    r: &mut [u16; 16],
    m: &mut [u16],
    next: usize,
    place: Place,
    taken: usize,
    written: usize,
    got: Result<Taken, u8>,
) -> Inner
    ensures { (out : List ℕ) → left r.new m.new out result
        ≡ takes (running r.old m.old out taken written) next place got }
{
    match got {
        Ok(t) => {
            let e = effects::shapes::written(next, r[SP], place, t.value, None);
            do_effect(r, m, e, t.after, written)
        }
        Err(k) => answered(k, false, taken, written),
    }
}

// PC goes on, nothing else of the registers changes.
#[tactic(auto, unfolding(crate::specs::Steps::goes_on))]
fn go_on(r: &mut [u16; 16], size: usize, next: usize, taken: usize, written: usize) -> Inner
    ensures { (m m' out out' : List ℕ) (was is : ℕ) → length m ≡ size →
        left r.new m' out' result ≡ goes_on (running r.old m out was is) next taken written m' out' }
{
    r[PC] = (next % 65536) as u16;
    answered(stop_at(next, size), true, taken, written)
}

// INSTR: the input's position moves on; a refusal leaves the memory as it was.
fn filled(
    r: &mut [u16; 16],
    size: usize,
    next: usize,
    taken: usize,
    written: usize,
    moved: Result<usize, u8>,
) -> Inner
    ensures { (m m' out : List ℕ) → length m ≡ size → ((k : ℕ) → moved ≡ Err k → m' ≡ m) →
        left r.new m' out result ≡ fills (running r.old m out taken written) next moved m' }
{
    match moved {
        Ok(after) => go_on(r, size, next, after, written),
        Err(k) => answered(k, false, taken, written),
    }
}

// WRCHAR, WRINT, WRSTR: the output's position moves on; a refusal leaves the output as it was.
fn printed(
    r: &mut [u16; 16],
    size: usize,
    next: usize,
    taken: usize,
    written: usize,
    moved: Result<usize, u8>,
) -> Inner
    ensures { (m out out' : List ℕ) → length m ≡ size → ((k : ℕ) → moved ≡ Err k → out' ≡ out) →
        left r.new m out' result ≡ prints (running r.old m out taken written) next moved out' }
{
    match moved {
        Ok(after) => go_on(r, size, next, taken, after),
        Err(k) => answered(k, false, taken, written),
    }
}

// What an input or output instruction does.
fn ask(
    r: &mut [u16; 16],
    m: &mut [u16],
    input: &[u8],
    out: &mut [u8],
    taken: usize,
    written: usize,
    next: usize,
    port: Port,
) -> Inner
    ensures { left r.new m.new out.new result
        ≡ asks input.now (running r.old m.old out.old taken written) next port }
{
    match port {
        Port::TakeByte(place) => {
            let got = ports::input::take_byte(input, taken);
            take(r, m, next, place, taken, written, got)
        }
        Port::TakeNumber(place) => {
            let got = ports::input::take_number(input, taken);
            take(r, m, next, place, taken, written, got)
        }
        Port::TakeString(to) => {
            let moved = ports::input::take_string(m, to, input, taken);
            filled(r, m.len(), next, taken, written, moved)
        }
        Port::PutByte(x) => {
            let moved = ports::output::put_byte(out, written, x);
            printed(r, m.len(), next, taken, written, moved)
        }
        Port::PutNumber(x) => {
            let moved = ports::output::put_number(out, written, x);
            printed(r, m.len(), next, taken, written, moved)
        }
        Port::PutString(from) => {
            let moved = ports::output::put_string(out, written, m, from);
            printed(r, m.len(), next, taken, written, moved)
        }
    }
}

// What an instruction comes to is done.
fn act(
    r: &mut [u16; 16],
    m: &mut [u16],
    input: &[u8],
    out: &mut [u8],
    taken: usize,
    written: usize,
    next: usize,
    p: Performed,
) -> Inner
    ensures { left r.new m.new out.new result
        ≡ performed input.now (running r.old m.old out.old taken written) next p }
{
    match p {
        Performed::Does(e) => do_effect(r, m, e, taken, written),
        Performed::Halts => halt(r, next, taken, written),
        Performed::Asks(port) => ask(r, m, input, out, taken, written, next, port),
        Performed::Stops(k) => answered(k, false, taken, written),
    }
}

// What the instruction of an allowed first word w at a place comes to, the address after it being `next`.
fn fetched(r: &[u16; 16], m: &[u16], at: usize, w: u16, op: Opcode, next: usize) -> Performed
    requires { (at < 65536) × (first_word_read w ≡ Ok op) }
    ensures { result ≡ perform_unless r.now m.now next (instruction_at m.now at w) }
{
    let relative = has_target(op);
    let a = located(r, m, next, relative, w / 8 % 8, word_at(m, at + 1));
    let b = located(r, m, next, false, w % 8, word_at(m, at + 2));
    perform(r, m, next, op, a, b)
}

// The instruction of an allowed first word w at a place of memory.
fn allowed(
    r: &mut [u16; 16],
    m: &mut [u16],
    input: &[u8],
    out: &mut [u8],
    taken: usize,
    written: usize,
    at: usize,
    w: u16,
    op: Opcode,
) -> Inner
    requires { (at < length m.old) × (at < 65536) × (first_word_read w ≡ Ok op) }
    ensures { left r.new m.new out.new result
        ≡ decoded input.now (running r.old m.old out.old taken written)
        (decode_word m.old at w) }
{
    let size = size_of(w);
    if m.len() - at < size {
        return answered(MEMORY_END, false, taken, written);
    }
    let next = at + size;
    let p = fetched(r, m, at, w, op, next);
    act(r, m, input, out, taken, written, next, p)
}

// The address that PC holds, as an index.
fn index(pc: u16) -> usize
    ensures { (result ≡ pc) × (result < 65536) }
{
    pc as usize
}

// A step of a machine that runs, on a good loan. Operands are found from the words at once, in place of an instruction made by `decode`
// and taken apart again: a quarter of a step's instructions.
pub(crate) fn inner(
    r: &mut [u16; 16],
    m: &mut [u16],
    input: &[u8],
    out: &mut [u8],
    taken: usize,
    written: usize,
) -> Inner
    ensures { left r.new m.new out.new result
        ≡ runs_on input.now (running r.old m.old out.old taken written) }
{
    let at = index(r[PC]);
    if m.len() <= at {
        return answered(MEMORY_END, false, taken, written);
    }
    let w = m[at];
    match first_word(w) {
        Ok(op) => allowed(r, m, input, out, taken, written, at, w, op),
        Err(why) => answered(u8::from(why), false, taken, written),
    }
}
