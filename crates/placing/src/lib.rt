// A line at its place (document 01, "Refusing a source": "label 10, 9; word 4; form 3; 5; 8; 6 or 7 ..; then the statement's result and
// label addresses ..; 11; 12"): its label, its own refusal, its address and cells. The meaning is `line_verdict` and `after` of sources.
#![tactic(auto)]

use isa::Address;

mod acts; // what a statement does
mod claims; // the map: cells that are claimed
mod declaring; // a line's own label
pub mod line; // a line at its place
pub mod naming; // labels that wait
mod placing; // a statement at its place

// Where a walk over lines stands: the address, how many labels are bound, and how many wait.
#[derive(Clone, Copy)]
pub struct Counters {
    pub at: Address,
    pub bound: usize,
    pub waiting: usize,
}
