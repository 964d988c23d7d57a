// Each label that an operand names replaced by its word, once every line has passed (document 01, "Only if no line fails: 13 and 14
// together, by line, then operand"). The meaning is `usesVerdict` and `filled` of sources.
#![tactic(auto)]

use codes::refusals::Refusal;
use sources::Line;

pub mod settle; // all of them, in order
mod words; // the word that a label stands for

// The first refusal, with its line, and whether the label is the second that this line names.
#[derive(Clone, Copy, Debug, PartialEq, Eq)]
pub struct Unsettled {
    pub refusal: Refusal,
    pub line: Line,
    pub second: bool,
}
