// The values of operands and DATA: numbers, and labels by their place in the line (document 01, "Rules of writing"). The meaning
// is in specs/: Values.antt and Ranges.antt.
#![tactic(auto)]

use numerals::{Cursor, Numeral};

pub mod ranges; // the cell that keeps a displacement
pub mod reading; // the value at a cursor

// A word of the line, by its place.
#[derive(Clone, Copy)]
pub struct Name {
    pub start: usize,
    pub end: usize,
}

// "v is a number or label".
#[derive(Clone, Copy)]
pub enum Value {
    Number(Numeral),
    Label(Name),
}
