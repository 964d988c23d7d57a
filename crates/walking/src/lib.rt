// The walk over a source's lines up to END (document 01, "then line by line up to END"): each line is read once, placed, and its cells and
// the labels that its operands name are kept. The meaning is `walkLines` and `workAfter` of sources.
#![tactic(auto)]

use codes::refusals::Refusal;
use placing::Counters;
use sources::Line;

mod noting; // the labels that a statement's operands name
pub mod walk; // all lines, and the source's end
mod writing; // a statement's cells

// How many labels a source has, and how many are named by operands.
#[derive(Clone, Copy)]
pub struct Walked {
    pub labels: usize,
    pub uses: usize,
}

// The first refusal: of a line, or of the source's end, with the last line.
#[derive(Clone, Copy, Debug, PartialEq, Eq)]
pub enum Stopped {
    InLine(Refusal, Line),
    Late(Line),
}

// Where a walk that no line stopped stands before the source's end, how many labels operands name, and the last line.
#[derive(Clone, Copy)]
struct Lines {
    counters: Counters,
    uses: usize,
    last: Line,
}
