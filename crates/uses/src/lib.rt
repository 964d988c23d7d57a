// The labels that a source's operands name, till every line has passed and each is replaced by its word (document 01, "Only if no line
// fails: 13 and 14 together, by line, then operand").
#![tactic(auto)]

pub mod cells; // a cell, if it is there
pub mod keeping; // one more, in two lent rows
