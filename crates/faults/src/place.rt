// The place in a line at which wrong form shows (specs/Walk.antt, specs/Inner/Turns.antt).
ghost use Rattle.std.specs.Prelude.{◌≡◌, ◌≤◌, ◌<◌, length};
ghost use Rattle.std.proofs.Math.Seq.{slice};
ghost use Rattle.faults.specs.Walk.{place};
ghost use Rattle.faults.specs.Inner.Stages.{spelt, opens_in};
ghost use Rattle.faults.specs.Inner.Turns.{stops_at, Turned};

use super::stages::{goes, grows, live, step};
use super::{Stage, State, Walk};

// Where the walk stops at a byte that no line of right form has there: at the byte, or at the line's end where something is missing
// before a comment.
fn stopped(line: &[u8], x: Stage, began: usize, at: usize, b: u8) -> usize
    requires { opens_in (spelt x (slice began at line.now)) < 18446744073709551615 }
    ensures { result ≡ stops_at line.now x began at b }
{
    if b == b';' && goes(line, step(line, x, began, at, b' ')) {
        return line.len();
    }
    at
}

// One byte more: where the walk stands behind it, or the place where it stops.
fn turn(line: &[u8], x: Stage, began: usize, at: usize) -> Result<Walk, usize>
    requires { (at < length line.now) × (began ≤ at) × (opens_in (spelt x (slice began at line.now)) ≤ at) }
    ensures { Turned line.now x began at result }
{
    let b = line[at];
    if grows(x, b) {
        return Ok(Walk { stage: x, began });
    }
    if !live(line, x, began, at) {
        return Err(began);
    }
    let next = step(line, x, began, at, b);
    if goes(line, next) {
        Ok(Walk {
            stage: next,
            began: at,
        })
    } else {
        Err(stopped(line, x, began, at, b))
    }
}

pub fn place(line: &[u8]) -> usize
    ensures { result ≡ place line.now }
{
    let mut walk = Walk {
        stage: Stage::Between(State::Start),
        began: 0,
    };
    // over the places: where the walk stops is one of them
    for at in 0..line.len() {
        match turn(line, walk.stage, walk.began, at) {
            Ok(next) => walk = next,
            Err(stop) => return stop,
        }
    }
    if live(line, walk.stage, walk.began, line.len()) {
        line.len()
    } else {
        walk.began
    }
}
