// From address to address: what begins there, how long the listing is, and the listing written (specs/Inner/Begins.antt).
ghost use Rattle.std.specs.Prelude.{◌≡◌, true, ◌≤◌, ◌<◌, length, drop};
ghost use Rattle.std.proofs.Math.Seq.{slice};
ghost use Rattle.codes.specs.Limits.{most_cells};
ghost use Rattle.isa.specs.Decoding.{decode_of};
ghost use Rattle.image.specs.Printing.{good_loan};
ghost use Rattle.ports.specs.Overwriting.{overwrite};
ghost use Rattle.listing.specs.Inner.Walk.{lines_of};
ghost use Rattle.listing.specs.Inner.Begins.{every_code, code_by, reserved_run, reserved_by, begins_at, found_text, was_found, measure_of};

use super::lines::{line, line_from, line_length};
use super::{Begins, Entry};
use codes::marks::{CODE, FREE, RESERVED};
use isa::decoding::decode;
use isa::{Address, Decoded};

// Whether all marks from one address up to another are those of code.
fn all_code(map: &[u8], from: usize, to: usize) -> bool
    requires { (from ≤ to) × (to ≤ length map.now) }
    ensures { result ≡ every_code (slice from to map.now) }
{
    map[from..to].iter().all(|mark| *mark == CODE)
}

// An instruction that lies within its code run.
fn code_at(memory: &[u16], map: &[u8], at: usize) -> Begins
    requires { length map.now ≡ length memory.now }
    ensures { result ≡ code_by map.now at (decode_of memory.now at) }
{
    let Ok(Decoded { instruction, next }) = decode(memory, Address(at)) else {
        return Begins::Fails;
    };
    if all_code(map, at, next.0) {
        Begins::Line(Entry::Instructs(instruction), next)
    } else {
        Begins::Fails
    }
}

// How many cells from an address on are reserved, with no other between.
fn reserved_run(map: &[u8], at: usize) -> usize
    requires { at ≤ length map.now }
    ensures { result ≡ reserved_run (drop at map.now) }
{
    map[at..]
        .iter()
        .take_while(|mark| **mark == RESERVED)
        .count()
}

// A run of reserved cells, as far as one RES goes: 65,535 cells.
fn reserved_at(map: &[u8], at: usize) -> Begins
    requires { (at < length map.now) × (length map.now ≤ most_cells) }
    ensures { result ≡ reserved_by at (reserved_run (drop at map.now)) }
{
    let n = reserved_run(map, at);
    if n <= 65535 {
        return Begins::Line(Entry::Reserves(n as u16), Address(at + n));
    }
    Begins::Line(Entry::Reserves(65535), Address(at + 65535))
}

fn begins_at(memory: &[u16], map: &[u8], at: usize) -> Begins
    requires { (length map.now ≡ length memory.now) × (at < length map.now) × (length map.now ≤ most_cells) }
    ensures { result ≡ begins_at memory.now map.now at }
{
    let mark = map[at];
    if mark == FREE {
        return Begins::Nothing;
    }
    if mark == CODE {
        return code_at(memory, map, at);
    }
    if mark == RESERVED {
        return reserved_at(map, at);
    }
    Begins::Line(Entry::Holds(memory[at]), Address(at + 1))
}

// Decodes every code run and adds up the lengths of all lines, END's 4 bytes last.
pub(crate) fn measured(memory: &[u16], map: &[u8]) -> Result<usize, Address>
    requires { good_loan memory.now map.now ≡ true }
    ensures { result ≡ measure_of (lines_of memory.now map.now) }
{
    let mut length: usize = 0;
    let mut behind: usize = 0;
    let mut at: usize = 0;
    // a while: a line may be many cells long, so the address goes on by the line's own step
    while at < map.len() {
        match begins_at(memory, map, at) {
            Begins::Nothing => {
                at += 1;
            }
            Begins::Line(e, next) => {
                length += line_length(behind, at, e);
                at = next.0;
                behind = at;
            }
            Begins::Fails => {
                return Err(Address(at));
            }
        }
    }
    Ok(length + 4)
}

// Writes the lines at the head of a room, where every code run decodes and there is room for all.
pub(crate) fn write(memory: &[u16], map: &[u8], room: &mut [u8])
    requires { (good_loan memory.now map.now ≡ true)
        × (was_found (lines_of memory.now map.now) ≡ true)
        × (length (found_text (lines_of memory.now map.now)) ≤ length room.old) }
    ensures { room.new ≡ overwrite room.old 0 (found_text (lines_of memory.now map.now)) }
{
    let mut put: usize = 0;
    let mut behind: usize = 0;
    let mut at: usize = 0;
    // a while, as in `measured`
    while at < map.len() {
        match begins_at(memory, map, at) {
            Begins::Nothing => {
                at += 1;
            }
            Begins::Line(e, next) => {
                put = line_from(room, put, behind, at, e);
                at = next.0;
                behind = at;
            }
            Begins::Fails => {
                return;
            }
        }
    }
    line(room, put, Entry::Finish);
}
