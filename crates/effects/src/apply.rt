// An effect written to registers and memory (specs/Applied.antt).
ghost use Rattle.std.specs.Prelude.{◌≡◌, get_or, set};
ghost use Rattle.effects.specs.Applied.{keeping_h, with_register, register_written, cell_written, flagged, registers_after, memory_after};

use super::{Effect, Place};
use codes::flags::FOR_H;
use codes::registers::{PC, SP, SR};

#[tactic(auto, unfolding(crate::specs::Applied::keeping_h))]
fn kept_h(sr: u16, v: usize) -> u16
    ensures { result ≡ keeping_h sr v }
{
    (v % (FOR_H as usize)) as u16 + sr / FOR_H * FOR_H
}

// A number stored in a row of cells or of registers, unless it is past the end.
fn put(row: &mut [u16], at: usize, v: u16)
    ensures { row.new ≡ set row.old at v }
{
    if at < row.len() {
        row[at] = v;
    }
}

#[tactic(auto, unfolding(crate::specs::Applied::with_register))]
fn put_register(r: &mut [u16; 16], k: usize, v: u16)
    ensures { r.new ≡ with_register r.old k v }
{
    if k == SR {
        r[SR] = kept_h(r[SR], v as usize);
        return;
    }
    put(r, k, v);
}

fn put_result(r: &mut [u16; 16], to: Place, v: u16)
    ensures { r.new ≡ register_written r.old to v }
{
    if let Place::InRegister(k) = to {
        put_register(r, k, v);
    }
}

fn put_flags(r: &mut [u16; 16], flags: Option<usize>)
    ensures { r.new ≡ flagged r.old flags }
{
    if let Some(f) = flags {
        r[SR] = kept_h(r[SR], f);
    }
}

// The registers after an effect.
#[tactic(auto, unfolding(crate::specs::Applied::registers_after))]
pub fn change_registers(r: &mut [u16; 16], e: Effect)
    ensures { r.new ≡ registers_after r.old e }
{
    r[SP] = e.sp;
    put_result(r, e.to, e.value);
    put_flags(r, e.flags);
    r[PC] = (e.next % 65536) as u16;
}

// The memory after an effect.
#[tactic(auto, unfolding(crate::specs::Applied::memory_after))]
pub fn change_memory(m: &mut [u16], e: Effect)
    ensures { m.new ≡ memory_after m.old e }
{
    if let Place::InCell(a) = e.to {
        put(m, a as usize, e.value);
    }
}
