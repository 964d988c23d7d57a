// Expressions of ORG, EQU and RES (document 01, "Rules of writing"). The meaning is in specs/: Grammar.antt, Trees.antt, Worths.antt,
// and Places.antt for the places of refusals.
#![tactic(auto)]

use numerals::Cursor;

pub mod symbols; // what a token is to an expression
pub mod reading; // the expression at a cursor
pub mod places; // the place of its refusal
mod parts; // sums, products and factors
pub mod scanning; // form and depth in constant space
mod worths; // what numbers and operations are worth

#[derive(Clone, Copy)]
pub enum Operation {
    Plus,
    Minus,
    Times,
    Over,
    Rest,
}

// Why an expression is worth nothing: refusal 6 or 7.
#[derive(Clone, Copy, Debug, PartialEq, Eq)]
pub enum Fault {
    OutOfRange,
    ByZero,
}

// What an expression is worth.
pub type Worth = Result<i32, Fault>;

// A fault with its place: that of the number, or of the operation's mark.
#[derive(Clone, Copy, Debug, PartialEq, Eq)]
pub struct FaultAt {
    pub fault: Fault,
    pub at: usize,
}

// What an expression is worth, with the place of the fault.
pub type Found = Result<i32, FaultAt>;

// Why a line's tokens are no expression: refusal 3 for form, 8 for depth.
#[derive(Clone, Copy, Debug, PartialEq, Eq)]
pub enum Malformed {
    WrongForm,
    TooDeep,
}

// What a token is to an expression: an operand, a mark of sums or of products, a parenthesis, or nothing that one has.
#[derive(Clone, Copy)]
pub enum Symbol {
    Number(u32),
    Sums(Operation),
    Products(Operation),
    Opens,
    Shuts,
    Other,
}

// Where the scan of a row stands: whether an operand is next, and how many parentheses are open.
#[derive(Clone, Copy)]
pub struct Scan {
    pub operand: bool,
    pub height: usize,
}
