// What numbers and operations are worth (specs/Worths.antt): computed at 64 bits, kept within 32; with the places of faults
// (specs/Places.antt).
ghost use Rattle.std.specs.Prelude.{◌≡◌};
ghost use Rattle.expressions.specs.Worths.{within32, of_number, operation};
ghost use Rattle.expressions.specs.Places.{found_at, evaluate, plain, fault_place};

use super::{Fault, FaultAt, Found, Operation, Worth};

fn within(v: i64) -> Worth
    ensures { result ≡ within32 v }
{
    i32::try_from(v).ok().ok_or(Fault::OutOfRange)
}

// The worth of a number that stands in an expression.
#[tactic(auto, unfolding(crate::specs::Worths::of_number))]
pub(crate) fn number_worth(v: u32) -> Worth
    ensures { result ≡ of_number v }
{
    if v <= 65535 {
        Ok(v as i32)
    } else {
        Err(Fault::OutOfRange)
    }
}

// `as`, and a test of 0 in each of two arms: with `i64::from` and one guard over both arms the proof did not close as it stands, and
// its check took minutes.
fn operation_on(o: Operation, a: i32, b: i32) -> Worth
    ensures { result ≡ operation o a b }
{
    let x = a as i64;
    let y = b as i64;
    match o {
        Operation::Plus => within(x + y),
        Operation::Minus => within(x - y),
        Operation::Times => within(x * y),
        Operation::Over => {
            if b == 0 {
                return Err(Fault::ByZero);
            }
            within(x / y)
        }
        Operation::Rest => {
            if b == 0 {
                return Err(Fault::ByZero);
            }
            within(x % y)
        }
    }
}

// A worth whose fault, if it is one, is at a place.
pub(crate) fn found_at(at: usize, w: Worth) -> Found
    ensures { result ≡ found_at at w }
{
    w.map_err(|fault| FaultAt { fault, at })
}

// Left, right, operation: the first fault is the whole's. The operation's is at its mark.
#[tactic(auto, unfolding(crate::specs::Places::evaluate))]
pub(crate) fn combined(at: usize, o: Operation, a: Found, b: Found) -> Found
    ensures { result ≡ evaluate at o a b }
{
    let x = a?;
    let y = b?;
    found_at(at, operation_on(o, x, y))
}

// The worth without its place.
pub(crate) fn plain_worth(w: Found) -> Worth
    ensures { result ≡ plain w }
{
    w.map_err(|f| f.fault)
}

// The place of the fault, 0 where there is none.
pub(crate) fn fault_place(w: Found) -> usize
    ensures { result ≡ fault_place w }
{
    match w {
        Ok(_) => 0,
        Err(f) => f.at,
    }
}
