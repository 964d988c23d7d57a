// The effects that opcodes share (specs/Effects.antt).
ghost use Rattle.std.specs.Prelude.{◌≡◌, cond};
ghost use Rattle.effects.specs.Places.{target_of};
ghost use Rattle.codes.specs.Stops.{zero_divisor};
ghost use Rattle.effects.specs.Effects.{goes_to, writes, to_a, pushes, pops, divides_to};

use super::places::{cell, target};
use super::{Effect, Performed, Place};
use arithmetic::Outcome;
use codes::registers::{A, PC};
use codes::stops::{MEMORY_END, ZERO_DIVISOR};

#[tactic(auto, unfolding(crate::specs::Effects::goes_to))]
fn goes_to(next: usize, sp: u16) -> Effect
    ensures { result ≡ goes_to next sp }
{
    Effect {
        next,
        sp,
        to: Place::Nowhere,
        value: 0,
        flags: None,
    }
}

fn made(next: usize, sp: u16, to: Place, value: u16, flags: Option<usize>) -> Effect
    ensures { result ≡ record { next = next; sp = sp; to = to; value = value; flags = flags } }
{
    Effect {
        next,
        sp,
        to,
        value,
        flags,
    }
}

// A value written to a place; a write to PC gives the next PC.
#[tactic(auto, unfolding(crate::specs::Effects::writes))]
pub fn written(next: usize, sp: u16, place: Place, value: u16, flags: Option<usize>) -> Effect
    ensures { result ≡ writes next sp place value flags }
{
    match place {
        Place::Nowhere | Place::Constant(_) => made(next, sp, Place::Nowhere, value, flags),
        Place::InRegister(PC) => made(value as usize, sp, Place::Nowhere, value, flags),
        Place::InRegister(_) | Place::InCell(_) => made(next, sp, place, value, flags),
    }
}

pub(crate) fn goes_on(next: usize, sp: u16) -> Performed
    ensures { result ≡ Performed.Does (goes_to next sp) }
{
    Performed::Does(goes_to(next, sp))
}

pub(crate) fn moved(next: usize, sp: u16, place: Place, value: u16) -> Performed
    ensures { result ≡ Performed.Does (writes next sp place value None) }
{
    Performed::Does(written(next, sp, place, value, None))
}

pub(crate) fn resulted(next: usize, sp: u16, place: Place, o: Outcome) -> Performed
    ensures { result ≡ Performed.Does (writes next sp place o.value (Some o.flags)) }
{
    Performed::Does(written(next, sp, place, o.value, Some(o.flags as usize)))
}

pub(crate) fn compared(next: usize, sp: u16, flags: u16) -> Performed
    ensures { result ≡ Performed.Does (writes next sp Place.Nowhere 0 (Some flags)) }
{
    Performed::Does(written(next, sp, Place::Nowhere, 0, Some(flags as usize)))
}

// To the accumulator; a zero divisor is stop 6.
pub(crate) fn divided(next: usize, sp: u16, d: Option<Outcome>) -> Performed
    ensures { result ≡ divides_to next sp d }
{
    match d {
        Some(o) => resulted(next, sp, Place::InRegister(A), o),
        None => Performed::Stops(ZERO_DIVISOR),
    }
}

pub(crate) fn jumped(next: usize, sp: u16, p: Place, taken: bool) -> Performed
    ensures { result ≡ Performed.Does (goes_to (cond taken (target_of p) next) sp) }
{
    if taken {
        goes_on(target(p) as usize, sp)
    } else {
        goes_on(next, sp)
    }
}

// A value pushed on the way to the next address; a cell outside memory is stop 5.
#[tactic(auto, unfolding(crate::specs::Effects::pushes, crate::specs::Stack::push_cell, crate::specs::Stack::pushed_sp))]
pub(crate) fn pushed(m: &[u16], sp: u16, value: u16, next: usize) -> Performed
    ensures { result ≡ pushes m.now sp value next }
{
    if (sp as usize) < m.len() {
        let below = ((sp as u32 + 65535) % 65536) as u16;
        moved(next, below, Place::InCell(sp), value)
    } else {
        Performed::Stops(MEMORY_END)
    }
}

// What is popped, written to a place; a cell outside memory is stop 5.
#[tactic(auto, unfolding(crate::specs::Effects::pops, crate::specs::Stack::pop_cell, crate::specs::Stack::popped_sp))]
pub(crate) fn popped(m: &[u16], sp: u16, next: usize, place: Place) -> Performed
    ensures { result ≡ pops m.now sp next place }
{
    let above = ((sp as u32 + 1) % 65536) as u16;
    if (above as usize) < m.len() {
        moved(next, above, place, cell(m, above as usize))
    } else {
        Performed::Stops(MEMORY_END)
    }
}
