// A whole source (document 01, "Rules of writing", "Refusing a source", "Layout"): its lines, its labels, its cells. The meaning is in
// specs/, and holds for every source; this crate has no function, only the names that the walks over a source share.
#![tactic(auto)]

// A line's number, counted from 1; 0 where no line is at fault. Never a cell's address (isa::Address).
#[derive(Clone, Copy, Debug, PartialEq, Eq)]
pub struct Line(pub usize);

// What the labels that wait get from a statement.
#[derive(Clone, Copy)]
pub enum Gives {
    Waits,
    Number(u16),
    Start,
}

// Where the next statement starts: so many cells further, the same by RES, or at an address.
#[derive(Clone, Copy)]
pub enum Moves {
    On(usize),
    Reserving(usize),
    To(usize),
}

// What a statement does: what waiting labels get, where the next one starts, how many cells it claims, and their mark.
#[derive(Clone, Copy)]
pub struct Act {
    pub gives: Gives,
    pub moves: Moves,
    pub claims: usize,
    pub mark: u8,
}
