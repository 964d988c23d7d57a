// The printed image (document 01, "The printed image"; 02, K2): memory and map as text, in a lent room. The meaning is in specs/: Image.antt has
// the text, Printing.antt the refusals and what the room holds after.
#![tactic(auto)]

pub mod printing;
mod lengths; // how long the text is
mod lines; // the text, written

// Why no image is printed.
#[derive(Clone, Copy, Debug, PartialEq, Eq)]
pub enum NotPrinted {
    BadLoan,
    RoomShort,
}
