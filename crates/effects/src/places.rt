// Where operands are, and what stands there (specs/Places.antt).
ghost use Rattle.std.specs.Prelude.{◌≡◌, length, get_or, List, ℕ};
ghost use Rattle.codes.specs.Stops.{none};
ghost use Rattle.isa.specs.Operands.{is_target, operand_of};
ghost use Rattle.isa.specs.declared.Kinds.{Kinds};
ghost use Rattle.isa.specs.declared.Operand.TheVariants as Operand;
ghost use Rattle.effects.specs.Places.{plus, target_of};
ghost use Rattle.effects.specs.Inner.Located.{located_at, unregistered, locate};

use super::{Located, Place};
use codes::registers::{IX, IY, PC, SP};
use codes::stops::{MEMORY_END, NO_REGISTER, NONE};

// A cell, and 0 past the end.
pub fn cell(m: &[u16], at: usize) -> u16
    ensures { result ≡ get_or m.now at 0 }
{
    m.get(at).copied().unwrap_or(0)
}

#[tactic(auto, unfolding(crate::specs::Places::plus))]
fn sum(a: u16, d: u16) -> u16
    ensures { result ≡ plus a d }
{
    ((a as u32 + d as u32) % 65536) as u16
}

fn found(place: Place, value: u16) -> Located
    ensures { result ≡ record { place = place; value = value; fault = none } }
{
    Located {
        place,
        value,
        fault: NONE,
    }
}

#[tactic(auto, unfolding(crate::specs::Places::there_in))]
fn at_cell(m: &[u16], a: u16) -> Located
    ensures { result ≡ located_at (length m.now) (Place.InCell a) (get_or m.now a 0) }
{
    let i = a as usize;
    if i < m.len() {
        return found(Place::InCell(a), m[i]);
    }
    Located {
        place: Place::InCell(a),
        value: 0,
        fault: MEMORY_END,
    }
}

fn no_register() -> Located
    ensures { result ≡ unregistered }
{
    Located {
        place: Place::Nowhere,
        value: 0,
        fault: NO_REGISTER,
    }
}

#[tactic(auto, unfolding(crate::specs::Inner::Located::locate, crate::specs::Places::place_of, crate::specs::Places::value_at, crate::specs::Places::there_in, crate::specs::Seen::see))]
fn at_register(r: &[u16; 16], next: usize, code: u16) -> Located
    ensures { (m : List ℕ) → result ≡ locate r.now m next (Operand.Register code) }
{
    let k = code as usize;
    if k < PC {
        return found(Place::InRegister(k), r[k]);
    }
    if k == PC {
        return found(Place::InRegister(PC), (next % 65536) as u16);
    }
    no_register()
}

#[tactic(auto, unfolding(crate::specs::Inner::Located::locate, crate::specs::Places::place_of, crate::specs::Places::value_at, crate::specs::Places::there_in, crate::specs::Seen::see))]
fn behind(r: &[u16; 16], m: &[u16], next: usize, code: u16) -> Located
    ensures { result ≡ locate r.now m.now next (Operand.Indirect code) }
{
    let k = code as usize;
    if k < PC {
        return at_cell(m, r[k]);
    }
    if k == PC {
        return at_cell(m, (next % 65536) as u16);
    }
    no_register()
}

// The operand of a mode and its word, place and value found in one match; what is no mode counts as mode 7.
pub fn located(
    r: &[u16; 16],
    m: &[u16],
    next: usize,
    relative: bool,
    mode: u16,
    word: u16,
) -> Located
    ensures { (k : Kinds) → is_target k ≡ relative → result ≡ locate r.now m.now next (operand_of k mode word) }
{
    match mode {
        0 => found(Place::Nowhere, 0),
        1 => found(Place::Constant(word), word),
        2 => at_register(r, next, word),
        3 => at_cell(m, word),
        4 => behind(r, m, next, word),
        5 => at_cell(m, sum(r[IX], word)),
        6 => at_cell(m, sum(r[IY], word)),
        _ => {
            if relative {
                at_cell(m, sum((next % 65536) as u16, word))
            } else {
                at_cell(m, sum(r[SP], word))
            }
        }
    }
}

#[tactic(auto, unfolding(crate::specs::Places::target_of))]
pub fn target(p: Place) -> u16
    ensures { result ≡ target_of p }
{
    match p {
        Place::Constant(x) | Place::InCell(x) => x,
        Place::Nowhere | Place::InRegister(_) => 0,
    }
}
