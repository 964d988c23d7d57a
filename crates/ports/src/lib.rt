// Input and output of ENS2025 on lent bytes: INCHAR, ININT, INSTR, WRCHAR, WRINT, WRSTR (document 01, "What a step does").
// The meaning is in specs/Input.antt and specs/Output.antt.
#![tactic(auto)]

ghost use Rattle.std.specs.Prelude.{◌≡◌, ◌+◌, leb};

pub mod input;
pub mod output;

// A value taken, and the position after it; where no value is taken, the position after what was put or taken is the answer. What is refused is told by the stop's number, a u8: the machine's stop code and what a host is
// answered are these numbers.
#[derive(Clone, Copy, Debug, PartialEq, Eq)]
pub struct Taken {
    pub value: u16,
    pub after: usize,
}

// Whether a row of a size has n elements from a place on.
fn has_room(size: usize, at: usize, n: usize) -> bool
    ensures { result ≡ leb (at + n) size }
{
    if size < at {
        return false;
    }
    n <= size - at
}
