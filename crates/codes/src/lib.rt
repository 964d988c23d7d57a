// Document 01's numbers, each named once: every crate that needs one takes its name from here, in code and in specs.
#![tactic(auto)]

pub mod flags; // the bits of SR
pub mod limits; // how much is lent, and how much is allowed
pub mod marks; // what the map says of a cell
pub mod refusals; // why a source is refused
pub mod registers; // their codes
pub mod stops; // why a machine stops
