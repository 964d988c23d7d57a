// DATA's items (document 01, "Rules of writing"): numbers and strings by commas, and the cells they take. The meaning is in
// specs/Items.antt.
#![tactic(auto)]

pub mod places; // where the first number out of range stands
pub mod reading; // the items that follow DATA
mod single; // one item
mod strings; // how many characters a string has
pub mod writing; // the cells of the items that follow DATA

// Why the tokens after DATA are no items: refusal 3 or 6.
#[derive(Clone, Copy, Debug, PartialEq, Eq)]
pub enum ItemsFault {
    WrongForm,
    OutOfRange,
}

// The measure of an item: the cells it takes, and whether it is in range.
#[derive(Clone, Copy)]
struct Measure {
    cells: usize,
    fits: bool,
}
