// A statement at its place: its address, its cells, and the labels that wait for it.
ghost use Rattle.std.specs.Prelude.{◌&&◌, ◌≡◌, ℕ, ◌+◌, ◌≤◌, ltb, leb, length};
ghost use Rattle.codes.specs.Limits.{most_cells, most_labels};
ghost use Rattle.sources.specs.Placing.{moved_by};
ghost use Rattle.sources.specs.Inner.Assembling.{gives_start, reserves_too_far};
ghost use Rattle.placing.specs.Inner.State.{state_of, Fair, FairDid, Keeps, WithNames, TellsAct, TellsStatement, Sound, past_at};

use super::Counters;
use super::acts::act;
use super::claims::{is_taken, paint};
use super::naming::bind_by;
use codes::limits::MOST_CELLS;
use codes::refusals::Refusal;
use isa::Address;
use sources::{Act, Gives, Moves};
use statements::{Failure, Statement};

// A label that waits would get 65,536.
fn label_out(g: Gives, waiting: usize, at: usize) -> bool
    ensures { result ≡ (gives_start g && (ltb 0 waiting && leb most_cells at)) }
{
    matches!(g, Gives::Start) && 0 < waiting && MOST_CELLS <= at
}

// RES moves the address above 65,536.
fn reserves_out(m: Moves, at: usize) -> bool
    requires { at ≤ most_cells }
    ensures { result ≡ reserves_too_far m at }
{
    match m {
        Moves::Reserving(n) => MOST_CELLS - at < n,
        _ => false,
    }
}

// A cell past the memory's end is claimed.
fn is_past(size: usize, at: usize, n: usize) -> bool
    ensures { result ≡ past_at size at n }
{
    0 < n && (size < n || size - n < at)
}

fn moved(m: Moves, at: usize) -> usize
    requires { moved_by m at ≤ most_cells }
    ensures { result ≡ moved_by m at }
{
    match m {
        Moves::On(n) | Moves::Reserving(n) => at + n,
        Moves::To(v) => v,
    }
}

fn place(values: &mut [u16], marks: &mut [u8], c: Counters, a: Act) -> Result<Counters, Refusal>
    requires { Fair c × (length values.old ≡ most_labels) × (length marks.old ≤ most_cells) × Sound a.moves a.claims }
    ensures { FairDid result
        × Keeps (c.bound + c.waiting) result
        × ((k : ℕ) → WithNames c (λ ws. TellsAct (length marks.old) a
        (state_of ws values.old marks.old c) (state_of ws values.new marks.new) k result)) }
{
    let at = c.at.0;
    let gives = a.gives;
    let moves = a.moves;
    let n = a.claims;
    let mark = a.mark;
    if label_out(gives, c.waiting, at) {
        return Err(Refusal::OutOfRange);
    }
    if reserves_out(moves, at) {
        return Err(Refusal::OutOfRange);
    }
    if is_past(marks.len(), at, n) {
        return Err(Refusal::PastMemory);
    }
    if is_taken(marks, at, n) {
        return Err(Refusal::ClaimedTwice);
    }
    paint(marks, at, n, mark);
    let d = bind_by(values, c, gives);
    let bound = d.bound;
    let waiting = d.waiting;
    Ok(Counters {
        at: Address(moved(moves, at)),
        bound,
        waiting,
    })
}

// A statement's own refusal, then its place.
pub(crate) fn place_statement(
    values: &mut [u16],
    marks: &mut [u8],
    c: Counters,
    s: Result<Statement, Failure>,
) -> Result<Counters, Refusal>
    requires { Fair c × (length values.old ≡ most_labels) × (length marks.old ≤ most_cells) }
    ensures { FairDid result
        × Keeps (c.bound + c.waiting) result
        × ((k : ℕ) → WithNames c (λ ws. TellsStatement (length marks.old) s
        (state_of ws values.old marks.old c) (state_of ws values.new marks.new) k result)) }
{
    let says = s?;
    place(values, marks, c, act(says))
}
