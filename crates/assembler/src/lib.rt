// The assembler (document 01): a source to memory and map. What a source means is in the crate sources; the promise of `assemble` is in
// specs/Promise.antt.
#![tactic(auto)]

use columns::Column;
use sources::Line;

pub mod assemble; // the loans, and the whole
mod counting; // the numbers of code, data and reserved cells

// "acceptance returns 0, line 0 and the numbers of code and data cells"; "Refusals return counts 0" (01). Reserved cells: "acceptance returns
// their number as a third count" (02, K2). A refusal has its column, and 16 the operand's place, 1 or 2 (02, K4); else these are 0.
#[derive(Clone, Copy)]
pub struct Reply {
    pub refusal: u8,
    pub line: Line,
    pub column: Column,
    pub place: u8,
    pub code: usize,
    pub data: usize,
    pub reserved: usize,
}
